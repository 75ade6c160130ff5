// The flows of a running test with an award's: they are tried, and held where none exceeds its released limit.
#![tactic(auto)]

ghost use Rattle.std.specs.Prelude.{◌≡◌, ◌≤◌, ◌<◌, length};
ghost use Rattle.lists.specs.Lent.{before, after};
ghost use Rattle.tariff.specs.Units.{factors_of, max_contracts};
ghost use Rattle.tariff.specs.ContractRules.{InRange};
ghost use Rattle.tier_rules.specs.Cells.{state_numbers, held_in};
ghost use Rattle.tier_running_rules.specs.AddAward.{no_state_of};
ghost use Rattle.tier_running_rules.specs.Inner.{Addable, StateLike, FlowsWith, AddsFlows};

use grid_tables::{FactorTable, GridTable};
use tariff::{Contract, Process};
use test_rules::Flows;
use test_verdict::Loading;

// Whether the cells are no state's: more counted than held, or a flow beyond what they can make. Numbers and flows stay two slices, here and below: C lends
// them so, with more cells behind them.
fn no_state(constraints: usize, numbers: &[u64], flows: &[i64]) -> bool
    requires { (state_numbers ≤ length numbers.now) × (constraints ≤ length flows.now) × (held_in numbers.now < max_contracts) }
    ensures { result ≡ no_state_of constraints numbers.now flows.now }
{
    let counted = numbers[1];
    numbers[0] < counted || test_held::flows_beyond(&flows[..constraints], counted as usize)
}

// The flows with an award's. `InRange` is a clause: a type for a contract in range would be made for each contract of a book.
fn flows_with(table: FactorTable, c: Contract, numbers: &[u64], flows: &[i64]) -> Flows
    requires { InRange table.nodes c × StateLike table.constraints numbers.now flows.now }
    ensures { FlowsWith (factors_of table.entry.nodes table.entry.constraints table.entry.cells.now) c flows.now result }
{
    let mut tried = test_held::held_flows(table.constraints, flows);
    let source = table.row(c.source);
    let sink = table.row(c.sink);
    test_flows::add_flow(&mut tried.flows, c, source, sink);
    tried
}

// Adds the flows and the count of an award that is of the period (`own`), and says whether 21 comes instead.
// A `bool`, as each check's: 21 is the one refusal, and `AddsFlows` speaks of the buffers by it.
pub fn add_flows(
    own: bool,
    grid: GridTable,
    process: Process,
    c: Contract,
    numbers: &mut [u64],
    flows: &mut [i64],
) -> bool
    requires { Addable grid.factors.nodes grid.factors.constraints grid.limits.now grid.factors.cells.now c numbers.old flows.old }
    ensures { AddsFlows own grid.entry.limits.now process (factors_of grid.entry.factors.nodes grid.entry.factors.constraints grid.entry.factors.cells.now) c
        (before numbers) (before flows) result (after numbers) (after flows) }
{
    if !own {
        return false;
    }
    let constraints = grid.factors.constraints;
    if no_state(constraints, numbers, flows) {
        return true;
    }
    let tried = flows_with(grid.factors, c, numbers, flows);
    if Loading::of(constraints, grid.limits, &tried).overload_set(process) != 0 {
        return true;
    }
    test_loading::fill_flows(constraints, tried, flows);
    numbers[1] += 1;
    false
}
