// The square of net transfers (document 02, paper 5): rows of moved customers checked and netted, and each LSE's losses held against its load.
#![tactic(auto)]

ghost use Rattle.std.specs.Prelude.{◌≡◌, [], ℕ, ◌-◌, ◌≤◌, ◌<◌, length};
ghost use Rattle.lists.specs.Lists.{any_of};
ghost use Rattle.tariff.specs.Refusals.{first};
ghost use Rattle.tariff.specs.Units.{max_entities};
ghost use Rattle.migration_rules.specs.Transfers.{entity_count, entity_bad_of, row_bad_of, migration_rows_in};
ghost use Rattle.migration_rules.specs.Transfers.{migration_row_checks, range_checks, losses_to, loads_exceeded_of};
ghost use Rattle.migration_transfers.specs.Squares.{row_losses, lost_in};
ghost use Rattle.migration_transfers.specs.Inner.{lists_of, row_says, unequal_lists, EqualLists, migration_row_at, RowsIn, SizedRow, SizedSquare, NetSquare};

use tariff::{
    MAX_CUSTOMERS, MAX_ENTITIES, MAX_LOAD, MAX_RATE, MAX_ROWS, Quantity, Refusal, Transfer,
};

// Net transfers: a row for each loser, a cell in it for each gainer. It stays an array of arrays passed by value (document 01), which has no ghost field: so
// `SizedSquare` and `SizedRow` are asked for by those that read it.
pub type Square = [[Transfer; MAX_ENTITIES]; MAX_ENTITIES];

// One loser's row of them.
pub type Row = [Transfer; MAX_ENTITIES];

// Whether a number is no LSE's.
fn entity_bad(entities: usize, number: u64) -> bool
    ensures { result ≡ entity_bad_of entities number }
{
    tariff::zero_or_above(number, entities as u64)
}

// How many LSEs there are: none, or too many. `share_checks::count_bad` is the same of coordinators: what the two share is `zero_or_above`.
fn entity_count_bad(entities: usize) -> bool
    ensures { result ≡ (entity_count entities).fails }
{
    tariff::zero_or_above(entities as u64, MAX_ENTITIES as u64)
}

// A row: customers moved, thousandths of a MW for each, and the numbers of the LSE that loses them and of the one that gains them.
#[derive(Clone, Copy)]
pub struct MovedRow {
    pub customers: u64,
    pub rate: u64,
    pub old: u64,
    pub new: u64,
}

// Rows as five lists, as C lends them, each with a cell for a row. Classes have no effect.
#[derive(Clone, Copy)]
pub struct RowLists<'a> {
    pub classes: &'a [u8],
    pub customers: &'a [u64],
    pub rates: &'a [u64],
    pub olds: &'a [u64],
    pub news: &'a [u64],
}

impl<'a> RowLists<'a> {
    // Not all lists are as long as the customers'.
    fn unequal(self) -> bool
        ensures { result ≡ unequal_lists (lists_of self.entry) }
    {
        let rows = self.customers.len();
        self.classes.len() != rows
            || self.rates.len() != rows
            || self.olds.len() != rows
            || self.news.len() != rows
    }

    // Row i.
    fn row(self, i: usize) -> MovedRow
        requires { (i < length self.customers.now) × EqualLists self.customers.now self.rates.now self.olds.now self.news.now }
        ensures { row_says result ≡ migration_row_at self.entry.customers.now self.entry.rates.now self.entry.olds.now self.entry.news.now i }
    {
        MovedRow {
            customers: self.customers[i],
            rate: self.rates[i],
            old: self.olds[i],
            new: self.news[i],
        }
    }
}

// A figure too large, a number that is no LSE's, or old and new the same.
#[tactic(auto, unfolding(migration_rules::specs::Transfers::row_bad_of))]
fn row_bad(entities: usize, row: MovedRow) -> bool
    ensures { result ≡ row_bad_of entities (row_says row) }
{
    MAX_CUSTOMERS < row.customers
        || MAX_RATE < row.rate
        || entity_bad(entities, row.old)
        || entity_bad(entities, row.new)
        || row.old == row.new
}

// One of the rows.
fn rows_bad(entities: usize, lists: RowLists) -> bool
    requires { EqualLists lists.customers.now lists.rates.now lists.olds.now lists.news.now }
    ensures { result ≡ any_of (row_bad_of entities) (migration_rows_in (lists_of lists.entry)) }
{
    (0..lists.customers.len()).any(|i| row_bad(entities, lists.row(i)))
}

// 22: a count, a figure or an LSE number outside its range, unequal lists, or a row whose old and new LSE are one.
pub fn check_rows(entities: usize, lists: RowLists) -> Result<(), Refusal>
    ensures { result ≡ first (migration_row_checks entities (lists_of lists.entry)) }
{
    if entity_count_bad(entities) {
        return Err(Refusal::MigrationRange);
    }
    if MAX_ROWS < lists.customers.len() {
        return Err(Refusal::MigrationRange);
    }
    if lists.unequal() {
        return Err(Refusal::MigrationRange);
    }
    if rows_bad(entities, lists) {
        return Err(Refusal::MigrationRange);
    }
    Ok(())
}

// The same with a load for each LSE, none of them out of range.
pub fn check_figures(lists: RowLists, loads: &[u64]) -> Result<(), Refusal>
    ensures { result ≡ first (range_checks (lists_of lists.entry) loads.now) }
{
    check_rows(loads.len(), lists)?;
    if grid_tables::cell_above(loads, MAX_LOAD) {
        return Err(Refusal::MigrationRange);
    }
    Ok(())
}

// The square of no rows.
fn no_transfers() -> Square
    ensures { NetSquare [] result }
{
    [[Transfer(0); MAX_ENTITIES]; MAX_ENTITIES]
}

// The square of rows that are all in range. Each is added in the cell of its loser and gainer, and taken off in the mirror of that cell.
pub fn net_square(lists: RowLists) -> Square
    requires { RowsIn lists.customers.now lists.rates.now lists.olds.now lists.news.now }
    ensures { NetSquare (migration_rows_in (lists_of lists.entry)) result }
{
    let mut square = no_transfers();
    for i in 0..lists.customers.len() {
        let row = lists.row(i);
        let load = Transfer::of_row(row.customers, row.rate);
        let loser = (row.old - 1) as usize;
        let gainer = (row.new - 1) as usize;
        let lost = square[loser][gainer] + load;
        let gained = square[gainer][loser] + -load;
        square[loser][gainer] = lost;
        square[gainer][loser] = gained;
    }
    square
}

// The row of the LSE of this number in a square, and the first one where it is no LSE's.
// Not an `Option`: a holder that is no LSE's has no new contracts by any row, and callers index with what comes.
pub fn row_of(number: u64) -> usize
    ensures { (result < max_entities) × (0 < number → number ≤ max_entities → result ≡ number - 1) }
{
    if number == 0 || (MAX_ENTITIES as u64) < number {
        return 0;
    }
    (number - 1) as usize
}

// What a loser's row says is lost to all of so many LSEs. `entities ≤ max_entities` is asked for here and wherever a row or a square is gone through: a type for
// the count would be made of `loads.len()` or of C's number at each call and taken apart again for a range.
fn lost_by(row: Row, entities: usize) -> Quantity
    requires { (entities ≤ max_entities) × SizedRow row }
    ensures { (i : ℕ) → result.0 ≡ losses_to (row_losses row) i entities }
{
    let mut lost = Quantity(0);
    for net in &row[..entities] {
        lost = lost + net.lost();
    }
    lost
}

// 23: a loser whose load is less than that, as a load of 0 is.
pub fn loads_exceeded(square: Square, loads: &[u64]) -> bool
    requires { (length loads.now ≤ max_entities) × SizedSquare square }
    ensures { result ≡ loads_exceeded_of (lost_in square) loads.now }
{
    for (i, load) in loads.iter().enumerate() {
        if Quantity(*load) < lost_by(square[i], loads.len()) {
            return true;
        }
    }
    false
}
