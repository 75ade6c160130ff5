// What a failing book can cost: the worst shortfall, with prices that reach it; between two figures where more than ten constraints are overloaded.
#![tactic(auto)]

ghost use Rattle.std.specs.Prelude.{◌≡◌, ◌^◌, ◌≤◌, length};
ghost use Rattle.lists.specs.Lent.{before, after};
ghost use Rattle.tariff.specs.Feasibility.{overloaded, overload_count};
ghost use Rattle.grid_tables.specs.Grids.{grid_by};
ghost use Rattle.test_terms.specs.Calls.{asked_test};
ghost use Rattle.exposure_rules.specs.Exposure.{few_overloads};
ghost use Rattle.exposure_prices.specs.Inner.{Listed};
ghost use Rattle.exposure_bounds.specs.FindExposure.{FindsExposure};
ghost use Rattle.exposure_bounds.specs.Inner.{contracts_by, AreExcesses, BestSet, BetterPrices, Exposed};

use exposure_figures::Exact;
use exposure_prices::{Best, ExcessTable};
use exposure_sets::{Listing, MOST_LISTED, MOST_SETS};
use tariff::{MAX_CONSTRAINTS, Refusal};
use test_terms::{Asked, Tested};
use test_verdict::{Loading, check_test};

// The least and the most that a book can cost.
#[derive(Clone, Copy)]
pub struct Exposure {
    pub least: Exact,
    pub most: Exact,
}

// Of all sets of the few constraints that are overloaded the one that costs the most, and what it costs: the empty set costs nothing.
fn worst_set(tested: Tested, over: &[usize]) -> Best
    requires few { (length over.now ≤ few_overloads) × (length over.now ≡ overload_count (grid_by tested.grid) tested.process (contracts_by tested)) }
    requires listed { Listed tested.grid.factors.constraints (overloaded (grid_by tested.grid) tested.process (contracts_by tested)) over.now }
    ensures { BestSet (grid_by tested.entry.grid) tested.entry.process (contracts_by tested.entry) (2 ^ length over.now) result }
{
    let mut costs = [0i64; MOST_SETS];
    let listing = Listing { tested, over };
    exposure_sets::set_costs(listing, &mut costs);
    exposure_prices::best_of(&costs[..exposure_sets::set_count(over.len())])
}

// The prices that cost more, of the two lists, and what they cost.
fn better_prices(tested: Tested, excesses: ExcessTable, prices: &mut [u64]) -> Exact
    requires are_excesses { (length excesses.cells.now ≡ tested.grid.factors.constraints)
        × AreExcesses (grid_by tested.grid) tested.process (contracts_by tested) excesses.cells.now }
    requires room { tested.grid.factors.constraints ≤ length prices.old }
    ensures { BetterPrices (grid_by tested.entry.grid) tested.entry.process (contracts_by tested.entry) (before prices) (after prices) result }
{
    let largest = exposure_prices::largest_cell(excesses.cells);
    let alone = exposure_prices::alone_shortfall(excesses, largest);
    exposure_prices::fill_prices(excesses, 0..excesses.cells.len(), prices);
    let all = exposure_shortfall::shortfall_at(tested, prices).shortfall;
    if all < alone {
        exposure_prices::fill_prices(excesses, largest..largest + 1, prices);
        alone
    } else {
        all
    }
}

// The least and the most that a book can cost, with the prices of the least, where no check refuses.
fn expose(tested: Tested, prices: &mut [u64]) -> Exposure
    requires { tested.grid.factors.constraints ≤ length prices.old }
    ensures { Exposed (grid_by tested.entry.grid) tested.entry.process (contracts_by tested.entry) (before prices) (after prices) result }
{
    let grid = tested.grid;
    let constraints = grid.factors.constraints;
    let carried = test_flows::carry(grid.factors, tested.period, tested.book);
    let loading = Loading::of(constraints, grid.limits, &carried);
    let mut cells = [0i64; MAX_CONSTRAINTS];
    test_excesses::fill_excess(loading, tested.process, &mut cells);
    let excesses = ExcessTable {
        cells: &cells[..constraints],
    };
    let mut over = [0usize; MAX_CONSTRAINTS];
    let count = exposure_prices::fill_over(excesses, &mut over);
    if count <= MOST_LISTED {
        let best = worst_set(tested, &over[..count]);
        exposure_prices::fill_set(excesses, best.set, prices);
        Exposure {
            least: best.cost,
            most: best.cost,
        }
    } else {
        let most = exposure_prices::at_highest(exposure_prices::total_above(excesses));
        let least = better_prices(tested, excesses, prices);
        Exposure { least, most }
    }
}

// Finds what a book can cost: the least and the most, between which its worst shortfall is, and prices that cost the least, one for each constraint.
// The tables are as C lends them, and become a `GridTable` once no check refuses them.
pub fn find_exposure(
    asked: Asked,
    limits: &[u64],
    factors: &[i64],
    book: &[u8],
    prices: &mut [u64],
) -> Result<Exposure, Refusal>
    ensures { FindsExposure (asked_test asked limits.now factors.now book.now) prices result }
{
    check_test(asked, limits, factors, book)?;
    if prices.len() < asked.constraints {
        return Err(Refusal::ShortTable);
    }
    Ok(expose(Tested::of(asked, limits, factors, book), prices))
}
