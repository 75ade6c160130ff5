// Books written from a table of six cells a contract. All checks come first, in the paper's order; then all is written.
#![tactic(auto)]

ghost use Rattle.std.specs.Prelude.{◌≡◌, List, ℕ, ◌*◌, ◌≤◌, ◌<◌, length};
ghost use Rattle.lists.specs.Lent.{before, after, overwrite};
ghost use Rattle.tariff.specs.Units.{max_contracts};
ghost use Rattle.tariff.specs.Refusals.{first};
ghost use Rattle.layouts.specs.BookFile.{book_bytes_of, book_file};
ghost use Rattle.layouts.specs.BookTable.{contract_cells, rows_in};
ghost use Rattle.book_rules.specs.BookChecks.{checks_to};
ghost use Rattle.book_rules.specs.WriteBook.{write_book_call, row_checks, write_book_checked, WritesBook};
ghost use Rattle.book_rules.specs.Inner.{RowFits};

use layouts::{CONTRACT_CELLS, Form};
use tariff::{MAX_CONTRACTS, Refusal};

// The checks of the first `contracts` rows, one after the other. Here and below the table and the count stand as C gives them: the paper's table can be longer
// than its rows, and `row_checks` and `rows_in` say it by both.
fn check_rows(below: usize, contracts: usize, cells: &[u64]) -> Result<(), Refusal>
    requires { (contracts ≤ max_contracts) × (contract_cells * contracts ≤ length cells.now) }
    ensures { result ≡ first (checks_to contracts (row_checks below cells.now)) }
{
    for i in 0..contracts {
        book_rows::check_row(below, cells, i)?;
    }
    Ok(())
}

// The writer's checks, with `bytes` lent bytes for the file: 2, 10, 9, row by row, 9.
fn check_write(
    form: Form,
    nodes: usize,
    contracts: usize,
    book: &[u64],
    bytes: usize,
) -> Result<(), Refusal>
    ensures { (place : List ℕ) → length place ≡ bytes → result ≡ write_book_checked (write_book_call form nodes contracts book.now place) }
{
    if tariff::nodes_bad(nodes) {
        return Err(Refusal::NodeCount);
    }
    if MAX_CONTRACTS < contracts {
        return Err(Refusal::ContractCount);
    }
    if book.len() < CONTRACT_CELLS * contracts {
        return Err(Refusal::ShortTable);
    }
    check_rows(form.ends_below(nodes), contracts, book)?;
    if bytes < form.book_bytes(contracts) {
        return Err(Refusal::ShortTable);
    }
    Ok(())
}

// Writes the header and the first `contracts` rows in a form, as `hub_book::write_grown` and `view_market::write_anonymous` do with what they have: a row's
// bits, a contract, a contract's bits. One function of the three would take that as a closure, say of any row what these say of theirs, and be no plainer.
fn write_contracts(form: Form, cells: &[u64], contracts: usize, file: &mut [u8])
    requires contracts_le_max_contracts { (contracts ≤ max_contracts) × (contract_cells * contracts ≤ length cells.now)
        × (book_bytes_of form contracts ≤ length file.old) }
    requires by_index { (i : ℕ) → i < contracts → RowFits form cells.now (contract_cells * i) }
    ensures { after file ≡ overwrite (book_file form (rows_in contracts cells.now)) (before file) }
{
    book_bits::store_header(file, form, contracts);
    for i in 0..contracts {
        let v = book_rows::row_number(form, cells, CONTRACT_CELLS * i);
        book_bits::store_bits(file, form, i, v);
    }
}

// Writes the first `contracts` rows of a table as a book in a form for a grid of `nodes` nodes.
pub fn write_book(
    form: Form,
    nodes: usize,
    contracts: usize,
    book: &[u64],
    file: &mut [u8],
) -> Result<usize, Refusal>
    ensures { WritesBook (write_book_call form nodes contracts book.now (before file)) result (after file) }
{
    check_write(form, nodes, contracts, book, file.len())?;
    write_contracts(form, book, contracts, file);
    Ok(form.book_bytes(contracts))
}
