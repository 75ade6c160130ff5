// Remapping a book for C: the length goes into a lent cell, and the answer is the refusal's number, 0 for none.
// C calls each operation by a name of its own and with raw parameters, so a body that only passes the answer on is written out for each.
#![tactic(auto)]

ghost use Rattle.lists.specs.Lent.{before, after};
ghost use Rattle.remap_rules.specs.RemapBook.{remap_book_call, RemapsBookForC};

// Applies pairs of old and new node numbers, one after another, to a book's file for a grid of `nodes` nodes, and gives the new file's length.
#[unsafe(no_mangle)]
pub extern "C" fn crr_remap_book(
    nodes: usize,
    book: &[u8],
    old: &[u64],
    new: &[u64],
    file: &mut [u8],
    bytes: &mut usize,
) -> u64
    ensures { RemapsBookForC (remap_book_call nodes book.now old.now new.now (before file)) result (after file) bytes }
{
    let answer = remap_book::remap_book(nodes, book, old, new, file);
    tariff::answer_cell(answer, bytes)
}
