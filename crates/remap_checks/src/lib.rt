// The checks before a book is remapped: its own, and those of the lists of old and new node numbers.
#![tactic(auto)]

ghost use Rattle.std.specs.Prelude.{◌≡◌, List, ℕ, ◌<◌, length};
ghost use Rattle.tariff.specs.Refusals.{first};
ghost use Rattle.remap_rules.specs.RemapBook.{remap_book_call, remap_book_checked};
ghost use Rattle.remap_rules.specs.Inner.{list_checks};

use layouts::Form;
use tariff::Refusal;

// The lists' checks: 11 for the old numbers, 11 for the new ones, which a book of this form must have room for, 9 where there are not as many of each.
fn check_lists(form: Form, nodes: usize, old: &[u64], new: &[u64]) -> Result<(), Refusal>
    requires { 0 < nodes }
    ensures { result ≡ first (list_checks form nodes old.now new.now) }
{
    if grid_tables::listed_outside(nodes, old) {
        return Err(Refusal::NodeNumber);
    }
    if grid_tables::listed_outside(form.ends_below(nodes), new) {
        return Err(Refusal::NodeNumber);
    }
    if old.len() != new.len() {
        return Err(Refusal::ShortTable);
    }
    Ok(())
}

// All checks, with `bytes` lent bytes for the new book: 2, the book's own, the lists', 9.
pub fn check_remap(
    nodes: usize,
    book: &[u8],
    old: &[u64],
    new: &[u64],
    bytes: usize,
) -> Result<(), Refusal>
    ensures { (place : List ℕ) → length place ≡ bytes → result ≡ remap_book_checked (remap_book_call nodes book.now old.now new.now place) }
{
    book_checks::check_own(nodes, book)?;
    check_lists(book_bits::book_form(book), nodes, old, new)?;
    if bytes < book.len() {
        return Err(Refusal::ShortTable);
    }
    Ok(())
}
