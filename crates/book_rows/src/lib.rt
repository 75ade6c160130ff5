// A row of a book's table, six cells: checked, stored, read as a contract, and its bits as one number.
#![tactic(auto)]

ghost use Rattle.std.specs.Prelude.{◌≡◌, ◌++◌, ◌+◌, ◌*◌, ◌≤◌, ◌<◌, length, take, drop};
ghost use Rattle.lists.specs.Lent.{before, after};
ghost use Rattle.tariff.specs.Units.{max_contracts};
ghost use Rattle.tariff.specs.Refusals.{first};
ghost use Rattle.layouts.specs.BookTable.{contract_cells, cells_of, row_from};
ghost use Rattle.book_rules.specs.WriteBook.{row_checks};
ghost use Rattle.book_rules.specs.Inner.{contract_bytes, bits_bytes, RowFits};

use book_bits::HOLDERS;
use layouts::{CONTRACT_CELLS, Form};
use tariff::{Contract, Kind, MAX_HOLDER, Period, Quantity, Refusal};

// Stores a contract into the six cells from `at` on. This and the next ones take the table and a row's first cell, as `row_from` and `row_checks` say a row:
// six cells as an array would have to be made of a table's slice by each caller, and said to be that table's row.
pub fn store_row(book: &mut [u64], at: usize, c: Contract)
    requires { at + contract_cells ≤ length book.old }
    ensures { after book ≡ take at (before book) ++ cells_of c ++ drop (at + contract_cells) (before book) }
{
    book[at] = c.kind as u64;
    book[at + 1] = c.period as u64;
    book[at + 2] = c.holder;
    book[at + 3] = c.source as u64;
    book[at + 4] = c.sink as u64;
    book[at + 5] = u64::from(c.quantity);
}

// The contract of the six cells from `at` on.
pub fn contract_from(cells: &[u64], at: usize) -> Contract
    requires { at + contract_cells ≤ length cells.now }
    ensures { result ≡ row_from cells.now at }
{
    Contract {
        kind: Kind::from(cells[at]),
        period: Period::from(cells[at + 1]),
        holder: cells[at + 2],
        source: cells[at + 3] as usize,
        sink: cells[at + 4] as usize,
        quantity: Quantity(cells[at + 5]),
    }
}

// A row's checks, its ends held to be below a number: 17, 18, 11, 13. The bound of `i` is what keeps its first cell's number from overflow.
pub fn check_row(below: usize, cells: &[u64], i: usize) -> Result<(), Refusal>
    requires { (i < max_contracts) × (contract_cells * i + contract_cells ≤ length cells.now) }
    ensures { result ≡ first (row_checks below cells.now i) }
{
    let at = CONTRACT_CELLS * i;
    if 1 < cells[at] || 1 < cells[at + 1] {
        return Err(Refusal::PeriodOrKind);
    }
    if MAX_HOLDER < cells[at + 2] {
        return Err(Refusal::HolderRange);
    }
    book_checks::check_numbers(
        below,
        cells[at + 3] as usize,
        cells[at + 4] as usize,
        cells[at + 5],
    )
}

// The bits of the contract of the six cells from `at` on as one number in a form. Where a kind and a period are 0 or 1 they are their own bits.
pub fn row_number(form: Form, cells: &[u64], at: usize) -> u64
    requires contract_cells_in_bounds { at + contract_cells ≤ length cells.now }
    requires row_fits { RowFits form cells.now at }
    ensures { contract_bytes form (row_from cells.now at) ≡ bits_bytes form result }
{
    let terms = (cells[at] * 2 + cells[at + 1]) * HOLDERS + cells[at + 2];
    book_bits::contract_number(form, terms, cells[at + 3], cells[at + 4], cells[at + 5])
}
