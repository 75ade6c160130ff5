// A holder's view of a book (document 02, paper 10): the holder's contracts alone, each behind its number in the book.
#![tactic(auto)]

ghost use Rattle.std.specs.Prelude.{◌≡◌, List, ◌++◌, ℕ, ◌+◌, ◌*◌, ◌≤◌, ◌<◌, ltb, length, take, drop};
ghost use Rattle.lists.specs.Lent.{before, after, overwrite};
ghost use Rattle.layouts.specs.Forms.{end_width, record_bytes};
ghost use Rattle.layouts.specs.BookFile.{contract_in};
ghost use Rattle.layouts.specs.Inner.{contract_for};
ghost use Rattle.view_rules.specs.Views.{held_at as held_at_of, held_to};
ghost use Rattle.view_rules.specs.HolderView.{holder_view_call, holder_view_checked, WritesHolderView};
ghost use Rattle.view_holder.specs.Inner.{stored_row, rows_at, rows_to};

use book_bits::{Contracts, NARROW_END_WIDTH, WIDE_END_WIDTH};
use layouts::Form;
use tariff::{MAX_HOLDER, Refusal};

// The holder among a contract's bits. The form is matched as in `book_bits::bits_at`, but each arm calls its own function with its own width.
fn holder_of(form: Form, v: u64) -> u64
    ensures { result ≡ (contract_for (end_width form) v).holder }
{
    match form {
        Form::Narrow => book_bits::holder_in(v, NARROW_END_WIDTH),
        Form::Wide => book_bits::holder_in(v, WIDE_END_WIDTH),
    }
}

// The bytes of a row: two of the number, then the contract's.
fn row_bytes(form: Form) -> usize
    ensures { (result ≡ 2 + record_bytes form) × (result ≤ 9) }
{
    match form {
        Form::Narrow => 8,
        Form::Wide => 9,
    }
}

// 1 where the holder has contract i, else 0.
// `contracts` and `holder` go together below: a struct of both would have no fact of its own, and put `self.` before each.
fn held_at(contracts: Contracts, holder: u64, i: usize) -> usize
    requires { i < contracts.count }
    ensures { (result ≡ length (held_at_of holder i (contract_in contracts.entry.form contracts.entry.file.now i))) × (result ≤ 1) }
{
    usize::from(holder_of(contracts.form, contracts.bits_at(i)) == holder)
}

// How many of the contracts the holder has.
fn held_count(contracts: Contracts, holder: u64) -> usize
    ensures { (result ≡ length (held_to holder (contract_in contracts.entry.form contracts.entry.file.now) contracts.entry.count))
        × (result ≤ contracts.entry.count) }
{
    let mut held = 0;
    for i in 0..contracts.len() {
        held += held_at(contracts, holder, i);
    }
    held
}

// Whether `bytes` bytes are too few for the holder's rows. Where there is room for a row of every contract, none is counted.
fn room_short(contracts: Contracts, holder: u64, bytes: usize) -> bool
    ensures { result ≡ ltb bytes (length (rows_to contracts.entry.form holder contracts.entry.file.now contracts.entry.count)) }
{
    let row = row_bytes(contracts.form);
    bytes < row * contracts.len() && bytes < row * held_count(contracts, holder)
}

// All checks, with `bytes` lent bytes for the view: the book's own, 18, 9.
fn check_holder_view(nodes: usize, book: &[u8], holder: u64, bytes: usize) -> Result<(), Refusal>
    ensures { (place : List ℕ) → length place ≡ bytes → result ≡ holder_view_checked (holder_view_call nodes book.now holder place) }
{
    book_checks::check_own(nodes, book)?;
    if MAX_HOLDER < holder {
        return Err(Refusal::HolderRange);
    }
    if room_short(Contracts::of(book), holder, bytes) {
        return Err(Refusal::ShortTable);
    }
    Ok(())
}

// Stores a row from place `at` on: a contract's number, then its bits.
fn store_row(view: &mut [u8], form: Form, at: usize, i: usize, v: u64)
    requires { at + (2 + record_bytes form) ≤ length view.old }
    ensures { after view ≡ take at (before view) ++ stored_row form i v ++ drop (at + (2 + record_bytes form)) (before view) }
{
    bits::store2(view, at, i as u64);
    match form {
        Form::Narrow => bits::store6(view, at + 2, v),
        Form::Wide => bits::store7(view, at + 2, v),
    }
}

// Stores contract i from place `at` on where the holder has it, and gives the place behind it.
fn put_held(contracts: Contracts, holder: u64, i: usize, view: &mut [u8], at: usize) -> usize
    requires i_bound { i < contracts.count }
    requires i_in_bounds { at + length (rows_at contracts.form holder contracts.file.now i) ≤ length view.old }
    ensures view_value { after view ≡ take at (before view) ++ rows_at contracts.entry.form holder contracts.entry.file.now i ++ drop result (before view) }
    ensures value { result ≡ at + length (rows_at contracts.entry.form holder contracts.entry.file.now i) }
{
    let form = contracts.form;
    let own = contracts.bits_at(i);
    if holder_of(form, own) != holder {
        return at;
    }
    store_row(view, form, at, i, own);
    at + row_bytes(form)
}

// Writes the rows of the holder's contracts, and gives their length.
fn write_held(contracts: Contracts, holder: u64, view: &mut [u8]) -> usize
    requires { length (rows_to contracts.form holder contracts.file.now contracts.count) ≤ length view.old }
    ensures view_value { after view ≡ overwrite (rows_to contracts.entry.form holder contracts.entry.file.now contracts.entry.count) (before view) }
    ensures value { result ≡ length (rows_to contracts.entry.form holder contracts.entry.file.now contracts.entry.count) }
{
    let mut at = 0;
    for i in 0..contracts.len() {
        at = put_held(contracts, holder, i, view, at);
    }
    at
}

// Writes a holder's view of a book for a grid of `nodes` nodes.
pub fn write_holder_view(
    nodes: usize,
    book: &[u8],
    holder: u64,
    view: &mut [u8],
) -> Result<usize, Refusal>
    ensures { WritesHolderView (holder_view_call nodes book.now holder (before view)) result (after view) }
{
    check_holder_view(nodes, book, holder, view.len())?;
    Ok(write_held(Contracts::of(book), holder, view))
}
