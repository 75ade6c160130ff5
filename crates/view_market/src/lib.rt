// The market's view of a book (document 02, paper 10): the book with every holder 0.
#![tactic(auto)]

ghost use Rattle.std.specs.Prelude.{◌≡◌, List, ℕ, ◌≤◌, length};
ghost use Rattle.lists.specs.Lists.{list_to};
ghost use Rattle.lists.specs.Lent.{before, after, overwrite};
ghost use Rattle.layouts.specs.BookFile.{book_bytes_of, book_file, contract_in};
ghost use Rattle.view_rules.specs.Views.{anonymous};
ghost use Rattle.view_rules.specs.MarketView.{market_view_call, market_view_checked, WritesMarketView};
ghost use Rattle.view_market.specs.Inner.{cleared_number};

use book_bits::{Contracts, NARROW_HOLDER_AT, NARROW_PERIOD_AT, WIDE_HOLDER_AT, WIDE_PERIOD_AT};
use layouts::Form;
use tariff::Refusal;

// What the bits above a holder count for, in either form.
const NARROW_ABOVE: u64 = 1u64 << NARROW_PERIOD_AT;

const WIDE_ABOVE: u64 = 1u64 << WIDE_PERIOD_AT;

// A contract's bits with the holder's ten cleared: the two above them, and all below.
fn cleared(form: Form, v: u64) -> u64
    ensures { result ≡ cleared_number form v }
{
    match form {
        Form::Narrow => bits::part(v, NARROW_PERIOD_AT, 2) * NARROW_ABOVE
            + bits::part(v, 0, NARROW_HOLDER_AT),
        Form::Wide => bits::part(v, WIDE_PERIOD_AT, 2) * WIDE_ABOVE
            + bits::part(v, 0, WIDE_HOLDER_AT),
    }
}

// Writes the book of the contracts in their form, without their holders. `remap_book::write_moved` stores contracts and this their bits: one function of both
// would take the store as a closure, say of any contract what these say of theirs, and be no plainer. The file is lent and written, so it has its own bound.
fn write_anonymous(contracts: Contracts, file: &mut [u8])
    requires { book_bytes_of contracts.form contracts.count ≤ length file.old }
    ensures { after file ≡ overwrite (book_file contracts.entry.form
        (list_to contracts.entry.count (λ i. anonymous (contract_in contracts.entry.form contracts.entry.file.now i)))) (before file) }
{
    let form = contracts.form;
    book_bits::store_header(file, form, contracts.len());
    for i in 0..contracts.len() {
        book_bits::store_bits(file, form, i, cleared(form, contracts.bits_at(i)));
    }
}

// All checks, with `bytes` lent bytes for the view: the book's own, 9. A list of checks, as the reader's is: the last has its own place and length.
fn check_market_view(nodes: usize, book: &[u8], bytes: usize) -> Result<(), Refusal>
    ensures { (place : List ℕ) → length place ≡ bytes → result ≡ market_view_checked (market_view_call nodes book.now place) }
{
    book_checks::check_own(nodes, book)?;
    if bytes < book.len() {
        return Err(Refusal::ShortTable);
    }
    Ok(())
}

// Writes the market's view of a book for a grid of `nodes` nodes.
pub fn write_market_view(nodes: usize, book: &[u8], file: &mut [u8]) -> Result<usize, Refusal>
    ensures { WritesMarketView (market_view_call nodes book.now (before file)) result (after file) }
{
    check_market_view(nodes, book, file.len())?;
    write_anonymous(Contracts::of(book), file);
    Ok(book.len())
}
