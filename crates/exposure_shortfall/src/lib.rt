// What a book costs at a price list: net payment, rent and shortfall (document 01, "Terms of the third demand").
#![tactic(auto)]

ghost use Rattle.std.specs.Prelude.{◌≡◌, ◌≤◌, take};
ghost use Rattle.lists.specs.Lent.{before};
ghost use Rattle.tariff.specs.Refusals.{first};
ghost use Rattle.tariff.specs.Units.{max_constraints, max_nodes, max_price};
ghost use Rattle.tariff.specs.ContractRules.{of_period};
ghost use Rattle.layouts.specs.BookFile.{book_in};
ghost use Rattle.grid_tables.specs.Inner.{GoodCells};
ghost use Rattle.grid_tables.specs.Grids.{grid_by};
ghost use Rattle.test_terms.specs.Calls.{asked_test};
ghost use Rattle.exposure_shortfall.specs.FindShortfall.{FindsShortfall};
ghost use Rattle.exposure_shortfall.specs.Inner.{cell_checks, table_checks, Costs};

use exposure_figures::Exact;
use grid_tables::HourTable;
use tariff::{MAX_CONSTRAINTS, MAX_CONTRACTS, MAX_LIMIT, MAX_PRICE, Refusal};
use test_terms::{Asked, Tested};

// What a book costs at a price list.
#[derive(Clone, Copy)]
pub struct Shortfall {
    pub payment: Exact,
    pub rent: Exact,
    pub shortfall: Exact,
}

// What a book costs at a price list, where no check refuses: its exact total is what settling the hour gives.
pub fn shortfall_at(tested: Tested, prices: &[u64]) -> Shortfall
    requires { GoodCells max_price tested.grid.factors.constraints prices.now }
    ensures { Costs (grid_by tested.entry.grid) tested.entry.process
        (of_period tested.entry.period (book_in tested.entry.book.now)) (take tested.entry.grid.factors.constraints prices.now) result }
{
    let mut cents = [0i64; MAX_CONTRACTS];
    let mut priced = [0u64; MAX_CONTRACTS];
    let factors = tested.grid.factors;
    let hour = HourTable { factors, prices };
    let totals = hour_contracts::settle(hour, tested.period, tested.book, &mut cents, &mut priced);
    let payment = Exact {
        whole: totals.whole,
        parts: totals.parts,
    };
    let grid = tested.grid;
    let owed = exposure_figures::rent(factors.constraints, tested.process, grid.limits, prices);
    Shortfall {
        payment,
        rent: owed.exact(),
        shortfall: payment - owed,
    }
}

// 9 for each table and for the prices, 6, 7, 15. Counts and tables stand apart, as C lends them: they become a `Tested` and an `HourTable` once nothing here
// refuses them. That the counts are few was checked before, or their product might not fit.
fn check_cells(
    nodes: usize,
    constraints: usize,
    limits: &[u64],
    factors: &[i64],
    prices: &[u64],
) -> Result<(), Refusal>
    requires { (nodes ≤ max_nodes) × (constraints ≤ max_constraints) }
    ensures { result ≡ first (cell_checks nodes constraints limits.now factors.now prices.now) }
{
    let cells = nodes * constraints;
    if limits.len() < constraints {
        return Err(Refusal::ShortTable);
    }
    if factors.len() < cells {
        return Err(Refusal::ShortTable);
    }
    if prices.len() < constraints {
        return Err(Refusal::ShortTable);
    }
    if grid_tables::cell_above(&limits[..constraints], MAX_LIMIT) {
        return Err(Refusal::LimitRange);
    }
    if grid_tables::factor_out_of_range(&factors[..cells]) {
        return Err(Refusal::FactorRange);
    }
    if grid_tables::cell_above(&prices[..constraints], MAX_PRICE) {
        return Err(Refusal::PriceRange);
    }
    Ok(())
}

// The checks of the tables, as C lends them: 2, 3, 16, 17, those of the cells.
// As `grid_tables::check_grid_tables` but for the cells' checks, among which the prices' stand.
fn check_tables(
    asked: Asked,
    limits: &[u64],
    factors: &[i64],
    prices: &[u64],
) -> Result<(), Refusal>
    ensures { result ≡ first (table_checks asked.nodes asked.constraints asked.process asked.period
        (limits.now) (factors.now) (prices.now)) }
{
    if tariff::nodes_bad(asked.nodes) {
        return Err(Refusal::NodeCount);
    }
    if MAX_CONSTRAINTS < asked.constraints {
        return Err(Refusal::ConstraintCount);
    }
    if 2 < asked.process {
        return Err(Refusal::ProcessNumber);
    }
    if 1 < asked.period {
        return Err(Refusal::PeriodOrKind);
    }
    check_cells(asked.nodes, asked.constraints, limits, factors, prices)
}

// Finds what a book costs at a price list: net payment, rent and shortfall. The tables are as C lends them.
pub fn find_shortfall(
    asked: Asked,
    limits: &[u64],
    factors: &[i64],
    prices: &[u64],
    book: &[u8],
) -> Result<Shortfall, Refusal>
    ensures { FindsShortfall (asked_test asked limits.now factors.now book.now) prices.now result }
{
    check_tables(asked, limits, factors, prices)?;
    book_checks::check_book(asked.nodes, book)?;
    Ok(shortfall_at(Tested::of(asked, limits, factors, book), prices))
}
