// Adding an award: its flows are tried, and what is held changes only where none exceeds its released limit.
ghost use Rattle.std.specs.Prelude.{◌≡◌, ◌+◌, ◌≤◌, ◌<◌, length, set};
ghost use Rattle.lists.specs.Lent.{before, after};
ghost use Rattle.tariff.specs.Units.{factors_of, max_contracts};
ghost use Rattle.tariff.specs.ContractRules.{same_period, period_of};
ghost use Rattle.tariff.specs.Processes.{process_of};
ghost use Rattle.tier_rules.specs.Cells.{awards_cells, state_numbers, held_in, left_in, with_award_row};
ghost use Rattle.tier_running_rules.specs.AddAward.{add_award_on, AddsAward};
ghost use Rattle.tier_running_rules.specs.Inner.{Addable, AddsFlows};

use grid_tables::GridTable;
use layouts::CONTRACT_CELLS;
use tariff::{Contract, Period, Process, Refusal};
use test_terms::Asked;

// Stores an award behind those held. Awards, numbers and flows stay three buffers, here and below: C lends them so, with more cells behind them.
fn store_award(c: Contract, awards: &mut [u64], numbers: &mut [u64])
    requires { (awards_cells ≤ length awards.old) × (state_numbers ≤ length numbers.old) × (held_in numbers.old < max_contracts) }
    ensures { (after awards ≡ with_award_row (held_in (before numbers)) c (before awards))
        × (after numbers ≡ set (before numbers) 0 (held_in (before numbers) + 1)) }
{
    book_rows::store_row(awards, CONTRACT_CELLS * (numbers[0] as usize), c);
    numbers[0] = numbers[0] + 1;
}

// Tries the flows of an award: those of one of the period are added, unless 21 comes instead, which it says.
// A `bool`, as each check's: 21 is the one refusal, and `AddsFlows` speaks of the buffers by it.
fn try_flows(
    asked: Asked,
    grid: GridTable,
    c: Contract,
    numbers: &mut [u64],
    flows: &mut [i64],
) -> bool
    requires { Addable grid.factors.nodes grid.factors.constraints grid.limits.now grid.factors.cells.now c numbers.old flows.old }
    ensures { AddsFlows (same_period c.period (period_of asked.period)) grid.entry.limits.now (process_of asked.process)
        (factors_of grid.entry.factors.nodes grid.entry.factors.constraints grid.entry.factors.cells.now) c
        (before numbers) (before flows) result (after numbers) (after flows) }
{
    let is_own = c.period == Period::from(asked.period);
    let process = Process::from(asked.process);
    tier_running_flows::add_flows(is_own, grid, process, c, numbers, flows)
}

// Adds an award to a running test, unless some flow would exceed its released limit: its checks before 21, its flows, then its row.
pub fn add_award(
    asked: Asked,
    limits: &[u64],
    factors: &[i64],
    award: &[u64],
    awards: &mut [u64],
    numbers: &mut [u64],
    flows: &mut [i64],
) -> Result<(), Refusal>
    ensures { AddsAward (add_award_on asked.nodes asked.constraints asked.process asked.period limits.now factors.now award.now
        (before awards) (before numbers) (before flows)) result (left_in awards numbers flows) }
{
    tier_running_checks::check_award(asked, limits, factors, award, awards, numbers, flows)?;
    let c = book_rows::contract_from(award, 0);
    let grid = GridTable::of(asked.nodes, asked.constraints, limits, factors);
    let over = try_flows(asked, grid, c, numbers, flows);
    if over {
        return Err(Refusal::AwardOverload);
    }
    store_award(c, awards, numbers);
    Ok(())
}
