// The book's two operations for C: figures go into lent cells, and the answer is the refusal's number, 0 for none.
// C calls each operation by a name of its own and with raw parameters, so a body that only passes the answer on is written out for each.
#![tactic(auto)]

ghost use Rattle.lists.specs.Lent.{before, after};
ghost use Rattle.layouts.specs.Forms.{form_of};
ghost use Rattle.book_rules.specs.ReadBook.{read_book_call, ReadsBookForC};
ghost use Rattle.book_rules.specs.WriteBook.{write_book_call, WritesBookForC};

use layouts::Form;

// Reads a book's file for a grid of `nodes` nodes into a table of six cells a contract, and gives how many contracts it has and the form's number.
#[unsafe(no_mangle)]
pub extern "C" fn crr_read_book(
    nodes: usize,
    file: &[u8],
    book: &mut [u64],
    contracts: &mut usize,
    form: &mut u64,
) -> u64
    ensures { ReadsBookForC (read_book_call nodes file.now (before book)) result (after book) contracts form }
{
    match book_reading::read_book(nodes, file, book) {
        Err(refusal) => refusal.number(),
        Ok(found) => {
            *contracts = found.contracts;
            *form = u64::from(found.form);
            0
        }
    }
}

// Writes the first `contracts` rows of a table as a book's file in a form, 0 narrow and any other number wide, for a grid of `nodes` nodes, and gives its length.
#[unsafe(no_mangle)]
pub extern "C" fn crr_write_book(
    form: u64,
    nodes: usize,
    contracts: usize,
    book: &[u64],
    file: &mut [u8],
    bytes: &mut usize,
) -> u64
    ensures { WritesBookForC (write_book_call (form_of form) nodes contracts book.now (before file)) result (after file) bytes }
{
    let form = Form::from(form);
    let answer = book_writing::write_book(form, nodes, contracts, book, file);
    tariff::answer_cell(answer, bytes)
}
