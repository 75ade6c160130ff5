// Books read into a table of six cells a contract. All checks come first, in the paper's order; then all is written.
#![tactic(auto)]

ghost use Rattle.std.specs.Prelude.{◌≡◌, ℕ, ◌*◌, ◌≤◌, length};
ghost use mathlib.Core.List.{List, flat_map};
ghost use Rattle.lists.specs.Lent.{before, after, overwrite};
ghost use Rattle.lists.specs.Lists.{list_to};
ghost use Rattle.layouts.specs.BookFile.{contract_in};
ghost use Rattle.layouts.specs.BookTable.{contract_cells, cells_of};
ghost use Rattle.book_rules.specs.ReadBook.{read_book_call, read_book_checked, ReadsBook};

use book_bits::Contracts;
use book_rules::BookRead;
use layouts::CONTRACT_CELLS;
use tariff::Refusal;

// The reader's checks, for a table of so many cells: 2, the book's own, 9. A list of checks, as the market view's is: the last has its own table and length.
fn check_read(nodes: usize, file: &[u8], cells: usize) -> Result<(), Refusal>
    ensures { (table : List ℕ) → length table ≡ cells → result ≡ read_book_checked (read_book_call nodes file.now table) }
{
    book_checks::check_own(nodes, file)?;
    if cells < CONTRACT_CELLS * book_bits::contract_count(file) {
        return Err(Refusal::ShortTable);
    }
    Ok(())
}

// Stores a book's contracts into the first cells.
fn read_contracts(contracts: Contracts, book: &mut [u64])
    requires { contract_cells * contracts.count ≤ length book.old }
    ensures { after book ≡ overwrite (flat_map cells_of (list_to contracts.entry.count (contract_in contracts.entry.form contracts.entry.file.now))) (before book) }
{
    for i in 0..contracts.len() {
        let c = contracts.at(i);
        book_rows::store_row(book, CONTRACT_CELLS * i, c);
    }
}

// Reads a book, in whichever form it is, for a grid of `nodes` nodes into a table of six cells a contract.
pub fn read_book(nodes: usize, file: &[u8], book: &mut [u64]) -> Result<BookRead, Refusal>
    ensures { ReadsBook (read_book_call nodes file.now (before book)) result (after book) }
{
    check_read(nodes, file, book.len())?;
    let contracts = Contracts::of(file);
    read_contracts(contracts, book);
    Ok(BookRead {
        contracts: contracts.count,
        form: contracts.form,
    })
}
