// What one cent costs on every set of a few constraints. Obligations and the rent add up by constraint; an option counts by the set, and its amounts are made
// of those of smaller sets, one constraint at a time.
#![tactic(auto)]

ghost use Rattle.std.specs.Prelude.{◌≡◌, ℕ, ◌+◌, ◌*◌, ◌^◌, ◌≤◌, ◌<◌, length, pos, nat_abs};
ghost use Rattle.lists.specs.Lent.{before, after};
ghost use Rattle.tariff.specs.ContractRules.{InRange, counted, of_period};
ghost use Rattle.tariff.specs.Inner.{max_released};
ghost use Rattle.layouts.specs.BookFile.{book_in};
ghost use Rattle.grid_tables.specs.Grids.{grid_by};
ghost use Rattle.exposure_sets.specs.Inner.{cell_in_of, max_row, SmallCells, Grown, Sums, Filled, Added, AddedSmall, UnitCosts};
ghost use Rattle.exposure_sets.specs.Listings.{count_by, raw_by, due_by, fixed_by, option_by, book_fixed_by, book_options_by};

mod listing;

use book_bits::Contracts;
pub use listing::Listing;
use tariff::{Amount, Contract, Flow, Kind};

// Of how many constraints every set is tried, and how many sets they have.
pub const MOST_LISTED: usize = 10;

pub const MOST_SETS: usize = 1024;

// How many sets so many constraints have.
pub fn set_count(count: usize) -> usize
    requires { count ≤ 10 }
    ensures { (result ≡ 2 ^ count) × (0 < result) × (result ≤ 1024) }
{
    1usize << count
}

// The sums of n sets, and of n more: each has x in addition. n is not the slice's length: n more sums go behind the n that there are, in one slice, so by index.
fn grow(n: usize, x: Flow, sums: &mut [i64])
    requires { (n + n ≤ length sums.old) × (n ≤ 512) × (nat_abs x.0 ≤ max_row) × SmallCells (max_row * 10) n sums.old }
    ensures { Grown n x.0 (before sums) (after sums) }
{
    for m in 0..n {
        let more = Flow(sums[m]) + x;
        sums[n + m] = more.0;
    }
}

// The sum of each set's figures.
fn set_sums(figures: &[i64], sums: &mut [i64; MOST_SETS])
    requires { (length figures.now ≤ 10) × SmallCells max_row (length figures.now) figures.now }
    ensures { Sums (length figures.now) (cell_in_of figures.now) (after sums) }
{
    sums[0] = 0;
    for (t, figure) in figures.iter().enumerate() {
        grow(set_count(t), Flow(*figure), sums);
    }
}

// A contract's spread × quantity at each of the listed constraints. That a place has a cell for each of them (`count_by`) is asked by each function that fills
// one: the places differ and are lent to be written, so no one value has them.
fn fill_spreads(listing: Listing, c: Contract, figures: &mut [i64])
    requires { InRange listing.tested.grid.factors.nodes c × (count_by listing ≤ length figures.old) }
    ensures { Filled (count_by listing.entry) (raw_by listing.entry c) (before figures) (after figures) }
{
    let source = listing.tested.grid.factors.row(c.source);
    let sink = listing.tested.grid.factors.row(c.sink);
    // By index: what is written is said cell by cell (`Filled`, `Added`).
    for (t, k) in listing.over.iter().enumerate() {
        figures[t] = c.quantity.flow(source[*k], sink[*k]).0;
    }
}

// The rent at one cent at each of the listed constraints, negative.
fn fill_rents(listing: Listing, figures: &mut [i64])
    requires { count_by listing ≤ length figures.old }
    ensures { Filled (count_by listing.entry) (due_by listing.entry) (before figures) (after figures) }
{
    let tested = listing.tested;
    for (t, k) in listing.over.iter().enumerate() {
        let x = Flow(0) - tested.process.released(tested.grid.limits[*k]);
        figures[t] = x.0;
    }
}

// Each figure, as it counts, added to its total.
fn add_counted(kind: Kind, figures: &[i64], totals: &mut [i64])
    requires { (length figures.now ≤ 1024) × (length figures.now ≤ length totals.old) × SmallCells (max_row * 10) (length figures.now) figures.now
        × SmallCells (2 ^ 61) (length figures.now) totals.old }
    ensures { Added (length figures.now) (λ (m : ℕ). counted kind (cell_in_of figures.now m)) (before totals) (after totals) }
{
    for (m, figure) in figures.iter().enumerate() {
        let amount = Amount(*figure).counted(kind);
        let more = Flow(totals[m]) + Flow(amount.0);
        totals[m] = more.0;
    }
}

// What a contract of the period pays at one cent: an obligation's added to its constraints' totals, an option's to its sets' costs. `sums` is a place for what
// an option pays.
fn add_contract(
    listing: Listing,
    c: Contract,
    row: &mut [i64],
    sums: &mut [i64; MOST_SETS],
    costs: &mut [i64; MOST_SETS],
)
    requires ends { InRange listing.tested.grid.factors.nodes c × (count_by listing ≤ length row.old) }
    requires small { SmallCells (2 ^ 61) (count_by listing) row.old × SmallCells (2 ^ 61) (2 ^ count_by listing) costs.old }
    ensures { AddedSmall max_released (count_by listing.entry) (fixed_by listing.entry c) (before row) (after row)
        × AddedSmall (max_released * 10) (2 ^ count_by listing.entry) (option_by listing.entry c) (before costs) (after costs) }
{
    if c.period == listing.tested.period {
        let count = listing.over.len();
        let mut cells = [0i64; MOST_LISTED];
        let figures = &mut cells[..count];
        fill_spreads(listing, c, figures);
        match c.kind {
            Kind::Obligation => add_counted(Kind::Obligation, figures, row),
            Kind::Option => {
                set_sums(figures, sums);
                add_counted(Kind::Option, &sums[..set_count(count)], costs);
            }
        }
    }
}

// What the book's contracts of the period pay at one cent: obligations to the totals of constraints, options to the costs of sets.
fn add_book(
    listing: Listing,
    row: &mut [i64],
    sums: &mut [i64; MOST_SETS],
    costs: &mut [i64; MOST_SETS],
)
    requires room { count_by listing ≤ length row.old }
    requires small { SmallCells max_released (count_by listing) row.old × SmallCells (max_released * 10) (2 ^ count_by listing) costs.old }
    ensures added { Added (count_by listing.entry) (book_fixed_by listing.entry) (before row) (after row)
        × SmallCells max_row (count_by listing.entry) (after row) }
    ensures added_2 { Added (2 ^ count_by listing.entry) (book_options_by listing.entry) (before costs) (after costs)
        × SmallCells (max_row * 10) (2 ^ count_by listing.entry) (after costs) }
{
    let contracts = Contracts::of(listing.tested.book);
    for i in 0..contracts.len() {
        let c = contracts.at(i);
        add_contract(listing, c, row, sums, costs);
    }
}

// What one cent costs on every set of the listed constraints, in 10^-8 cents, into the first cells of `costs`, which are 0.
pub fn set_costs(listing: Listing, costs: &mut [i64; MOST_SETS])
    requires { (m : ℕ) → m < 1024 → cell_in_of costs.old m ≡ pos 0 }
    ensures { UnitCosts (grid_by listing.entry.tested.grid) listing.entry.tested.process
        (of_period listing.entry.tested.period (book_in listing.entry.tested.book.now)) listing.entry.over.now (count_by listing.entry) (after costs) }
{
    let count = listing.over.len();
    let mut cells = [0i64; MOST_LISTED];
    let row = &mut cells[..count];
    let mut sums = [0i64; MOST_SETS];
    fill_rents(listing, row);
    add_book(listing, row, &mut sums, costs);
    set_sums(row, &mut sums);
    add_counted(Kind::Obligation, &sums[..set_count(count)], costs);
}
