// The canonical form of a book for C: the length goes into a lent cell, and the answer is the refusal's number, 0 for none.
// C calls each operation by a name of its own and with raw parameters, so a body that only passes the answer on is written out for each.
#![tactic(auto)]

ghost use Rattle.lists.specs.Lent.{before, after};
ghost use Rattle.canonical_rules.specs.CanonicalBook.{canonical_book_call, WritesCanonicalBookForC};

// Writes the canonical form of a book's file for a grid of `nodes` nodes, and gives its length.
// Its name and parameters are those of crr.h: functions of this shape pass on one answer each.
#[unsafe(no_mangle)]
pub extern "C" fn crr_write_canonical_book(
    nodes: usize,
    book: &[u8],
    file: &mut [u8],
    bytes: &mut usize,
) -> u64
    ensures { WritesCanonicalBookForC (canonical_book_call nodes book.now (before file)) result (after file) bytes }
{
    let answer = canonical_book::write_canonical_book(nodes, book, file);
    tariff::answer_cell(answer, bytes)
}
