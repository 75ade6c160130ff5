// A book's contracts as numbers that have the canonical order (document 02, paper 11): sorted, added together and cut in one walk.
#![tactic(auto)]

ghost use Rattle.std.specs.Prelude.{◌≡◌, map, ◌+◌, ◌≤◌, ◌<◌, length, take};
ghost use Rattle.lists.specs.Lists.{Each, list_to};
ghost use Rattle.lists.specs.Lent.{before, after};
ghost use Rattle.tariff.specs.Units.{max_quantity};
ghost use Rattle.layouts.specs.BookFile.{contract_in};
ghost use Rattle.layouts.specs.Inner.{contract_for};
ghost use Rattle.canonical_rules.specs.Canonical.{canonical};
ghost use Rattle.canonical_rules.specs.Inner.{row_number, quantity_in, number_at as number_at_of, walk_numbers};
ghost use Rattle.canonical_numbers.specs.Inner.{SizedQuantity, Steps, Countable};

use book_bits::{Contracts, NARROW_END_WIDTH, QUANTITIES, QUANTITY_WIDTH, WIDE_END_WIDTH};
use layouts::Form;
use tariff::{MAX_QUANTITY, Quantity};

// One past the largest figure of an end's bits in a row's number.
const ENDS: u64 = 1u64 << WIDE_END_WIDTH;

// The number of the contract whose bits are the lowest of `v`, its ends of `width` bits: ends of 12 bits, so that it has the canonical order.
fn number_of(v: u64, width: usize) -> u64
    requires { width ≤ 12 }
    ensures { result ≡ row_number (contract_for width v) }
{
    let terms = book_bits::terms_in(v, width);
    let source = book_bits::source_in(v, width);
    let sink = book_bits::sink_in(v, width);
    let quantity = book_bits::quantity_in(v);
    book_bits::contract_number(Form::Wide, terms, source, sink, quantity)
}

// The same with ends of 8 bits: sink and quantity stand side by side as in the number, and are taken as one.
fn narrow_number_of(v: u64) -> u64
    ensures { result ≡ row_number (contract_for 8 v) }
{
    let terms = book_bits::terms_in(v, NARROW_END_WIDTH);
    let source = book_bits::source_in(v, NARROW_END_WIDTH);
    let rest = bits::part(v, 0, NARROW_END_WIDTH + QUANTITY_WIDTH);
    (terms * ENDS + source) * (ENDS * QUANTITIES) + rest
}

// The number of contract i.
fn number_at(contracts: Contracts, i: usize) -> u64
    requires { i < contracts.count }
    ensures { result ≡ row_number (contract_in contracts.entry.form contracts.entry.file.now i) }
{
    let v = contracts.bits_at(i);
    match contracts.form {
        Form::Narrow => narrow_number_of(v),
        Form::Wide => number_of(v, WIDE_END_WIDTH),
    }
}

// Puts the numbers of the first contracts into the cells, one into each.
fn fill_numbers(contracts: Contracts, cells: &mut [u64])
    requires { length cells.old ≤ contracts.count }
    ensures { after cells ≡ list_to (length (before cells)) (λ i. row_number (contract_in contracts.entry.form contracts.entry.file.now i)) }
{
    for (i, cell) in cells.iter_mut().enumerate() {
        *cell = number_at(contracts, i);
    }
}

// A step of the walk: the row that goes out, if one does, and what is pending then.
#[derive(Clone, Copy)]
struct Step {
    out: Option<u64>,
    pending: u64,
}

// The quantity of a row's number, which is its five times `QUANTITIES`, plus its quantity.
fn row_quantity(row: u64) -> Quantity
    ensures { result.0 ≡ quantity_in row }
{
    Quantity(row % QUANTITIES)
}

// The number of the row of the same five with this quantity. A `Quantity` may be a book's 20 bits before any check, so that its bound is asked for here.
fn row_with(row: u64, quantity: Quantity) -> u64
    requires { quantity.0 ≤ max_quantity }
    ensures { result ≡ number_at_of quantity.0 row }
{
    row / QUANTITIES * QUANTITIES + u64::from(quantity)
}

// The pending row and the next one: of one five they are added, and a full row goes out where they are more; of two fives the pending row goes out.
fn next_step(row: u64, next: u64) -> Step
    requires { SizedQuantity row × SizedQuantity next }
    ensures { Steps row next result }
{
    if row / QUANTITIES != next / QUANTITIES {
        return Step {
            out: Some(row),
            pending: next,
        };
    }
    let most = Quantity(MAX_QUANTITY);
    let both = row_quantity(row) + row_quantity(next);
    if most < both {
        return Step {
            out: Some(row_with(row, most)),
            pending: row_with(row, both - most),
        };
    }
    Step {
        out: None,
        pending: row_with(row, both),
    }
}

// Adds together and cuts the cells, whose fives rise. Gives how many rows there are then: never more than are read, so they go into the same cells.
fn walk(cells: &mut [u64]) -> usize
    requires { (0 < length cells.old) × Each SizedQuantity cells.old }
    ensures { (take result (after cells) ≡ walk_numbers (before cells)) × (result ≤ length (before cells)) }
{
    let mut row = cells[0];
    let mut rows = 0;
    for i in 1..cells.len() {
        let s = next_step(row, cells[i]);
        if let Some(out) = s.out {
            cells[rows] = out;
            rows += 1;
        }
        row = s.pending;
    }
    cells[rows] = row;
    rows + 1
}

// The canonical rows of the contracts, as numbers in the first cells. Gives how many there are.
pub fn canonical_rows(contracts: Contracts, cells: &mut [u64]) -> usize
    requires { Countable contracts.form contracts.file.now contracts.count × (contracts.count ≤ length cells.old) }
    ensures { (take result (after cells)
        ≡ map row_number (canonical (list_to contracts.entry.count (contract_in contracts.entry.form contracts.entry.file.now))))
        × (result ≤ contracts.entry.count) }
{
    let count = contracts.len();
    if count == 0 {
        return 0;
    }
    let rows = &mut cells[..count];
    fill_numbers(contracts, rows);
    sorting_digits::sort(rows);
    walk(rows)
}
