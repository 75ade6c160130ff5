// Lent tables: the search for a figure out of range, and the checks that operations on a grid's tables and an hour's tables share.
#![tactic(auto)]

ghost use Rattle.std.specs.Prelude.{◌≡◌, [], ◌∷◌, ◌*◌, ◌≤◌, ◌<◌, leb, length, take};
ghost use Rattle.lists.specs.Lists.{any_of, above};
ghost use Rattle.lists.specs.Lent.{before};
ghost use Rattle.tariff.specs.Units.{max_nodes, max_constraints};
ghost use Rattle.tariff.specs.Refusals.{first};
ghost use Rattle.tariff.specs.Checks.{factor_bad_of, short_table, limit_range, factor_range, price_range};
ghost use Rattle.grid_tables.specs.TableChecks.{grid_table_checks};
ghost use Rattle.grid_tables.specs.Inner.{hour_table_checks};

mod table;

pub use table::{FactorTable, GridTable, HourTable};
use tariff::{MAX_CONSTRAINTS, MAX_FACTOR, MAX_LIMIT, MAX_PRICE, Refusal};

// Whether a cell is above `most`.
pub fn cell_above(cells: &[u64], most: u64) -> bool
    ensures { result ≡ any_of (above most) cells.now }
{
    cells.iter().any(|cell| most < *cell)
}

// Whether a listed number is not below `bound`.
pub fn listed_outside(bound: usize, list: &[u64]) -> bool
    requires { 0 < bound }
    ensures { result ≡ any_of (leb bound) list.now }
{
    cell_above(list, (bound - 1) as u64)
}

// The least factor.
const MIN_FACTOR: i64 = -MAX_FACTOR;

// Whether a factor is out of range. As short as a call of one function with `share_checks::balance_bad` would be: other bounds, and no crate of both.
fn factor_bad(factor: i64) -> bool
    ensures { result ≡ factor_bad_of factor }
{
    factor < MIN_FACTOR || MAX_FACTOR < factor
}

// Whether one of four factors is out of range: all are looked at, so that there is one branch for them.
fn four_bad(four: &[i64; 4]) -> bool
    ensures { result ≡ any_of factor_bad_of four.now }
{
    factor_bad(four[0]) | factor_bad(four[1]) | factor_bad(four[2]) | factor_bad(four[3])
}

// Whether a factor is out of range.
pub fn factor_out_of_range(factors: &[i64]) -> bool
    ensures { result ≡ any_of factor_bad_of factors.now }
{
    let (fours, rest) = factors.as_chunks::<4>();
    fours.iter().any(|four| four_bad(four)) || rest.iter().any(|factor| factor_bad(*factor))
}

// 9 for each table, 6, 7. Counts and tables by themselves, here and below: they are no `GridTable` before these checks, and entries have them so from C; the
// counts' bounds come from the tests before the call, so that `nodes * constraints` fits.
fn check_grid_cells(
    nodes: usize,
    constraints: usize,
    limits: &[u64],
    factors: &[i64],
) -> Result<(), Refusal>
    requires { (nodes ≤ max_nodes) × (constraints ≤ max_constraints) }
    ensures { result ≡ first (
        short_table (length (limits.now)) constraints ∷ short_table (length (factors.now)) (nodes * constraints)
        ∷ limit_range (take constraints (limits.now)) ∷ factor_range (take (nodes * constraints) (factors.now)) ∷ []) }
{
    let cells = nodes * constraints;
    if limits.len() < constraints {
        return Err(Refusal::ShortTable);
    }
    if factors.len() < cells {
        return Err(Refusal::ShortTable);
    }
    if cell_above(&limits[..constraints], MAX_LIMIT) {
        return Err(Refusal::LimitRange);
    }
    if factor_out_of_range(&factors[..cells]) {
        return Err(Refusal::FactorRange);
    }
    Ok(())
}

// The test's checks up to 7: 2, 3, 16, 17, 9, 6, 7.
pub fn check_grid_tables(
    nodes: usize,
    constraints: usize,
    process: u64,
    period: u64,
    limits: &[u64],
    factors: &[i64],
) -> Result<(), Refusal>
    ensures { result ≡ first (grid_table_checks nodes constraints process period limits.now factors.now) }
{
    if tariff::nodes_bad(nodes) {
        return Err(Refusal::NodeCount);
    }
    if MAX_CONSTRAINTS < constraints {
        return Err(Refusal::ConstraintCount);
    }
    if 2 < process {
        return Err(Refusal::ProcessNumber);
    }
    if 1 < period {
        return Err(Refusal::PeriodOrKind);
    }
    check_grid_cells(nodes, constraints, limits, factors)
}

// 9 for each table and for the place, 7, 15. As above: they are no `HourTable` yet.
fn check_hour_cells(
    nodes: usize,
    constraints: usize,
    factors: &[i64],
    prices: &[u64],
    place: usize,
) -> Result<(), Refusal>
    requires { (nodes ≤ max_nodes) × (constraints ≤ max_constraints) }
    ensures { result ≡ first (
        short_table (length (factors.now)) (nodes * constraints) ∷ short_table (length (prices.now)) constraints ∷ short_table place nodes
        ∷ factor_range (take (nodes * constraints) (factors.now)) ∷ price_range (take constraints (prices.now)) ∷ []) }
{
    let cells = nodes * constraints;
    if factors.len() < cells {
        return Err(Refusal::ShortTable);
    }
    if prices.len() < constraints {
        return Err(Refusal::ShortTable);
    }
    if place < nodes {
        return Err(Refusal::ShortTable);
    }
    if factor_out_of_range(&factors[..cells]) {
        return Err(Refusal::FactorRange);
    }
    if cell_above(&prices[..constraints], MAX_PRICE) {
        return Err(Refusal::PriceRange);
    }
    Ok(())
}

// The checks of an hour's tables, with `place` cells for an answer of one cell a node: 2, 3, 17, 9, 7, 15.
pub fn check_hour_tables(
    nodes: usize,
    constraints: usize,
    period: u64,
    factors: &[i64],
    prices: &[u64],
    place: usize,
) -> Result<(), Refusal>
    ensures { result ≡ first (hour_table_checks nodes constraints period factors.now prices.now place) }
{
    if tariff::nodes_bad(nodes) {
        return Err(Refusal::NodeCount);
    }
    if MAX_CONSTRAINTS < constraints {
        return Err(Refusal::ConstraintCount);
    }
    if 1 < period {
        return Err(Refusal::PeriodOrKind);
    }
    check_hour_cells(nodes, constraints, factors, prices, place)
}
