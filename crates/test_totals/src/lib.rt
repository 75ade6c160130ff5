// A feasibility test of any size, step by step: a book's flows added to running totals, and totals judged.
#![tactic(auto)]

ghost use Rattle.std.specs.Prelude.{◌≡◌, length};
ghost use Rattle.lists.specs.Lent.{before, after, overwrite};
ghost use Rattle.test_totals.specs.Totals.{no_totals_of};
ghost use Rattle.test_totals.specs.AddFlows.{add_flows_call, AddsFlows};
ghost use Rattle.test_totals.specs.Inner.{Addable, with_flows};
ghost use Rattle.test_totals.specs.JudgeFlows.{judge_call, judge_checked, JudgesFlows};

use grid_tables::FactorTable;
use tariff::{Flow, MAX_CONSTRAINTS, MAX_LIMIT, Period, Process, Refusal};
use test_rules::{Flows, Verdict};
use test_terms::AskedFlows;
use test_verdict::Loading;

// Totals are of at most so many contracts, so that no sum leaves 64 bits.
pub const MAX_SUMMED: usize = 20000000;

// Whether flows are no totals of so many contracts: here and below `count` is of contracts, and not of cells.
fn no_totals(count: usize, flows: &[i64]) -> bool
    ensures { result ≡ no_totals_of (length flows.now) count flows.now }
{
    MAX_SUMMED < count || test_held::flows_beyond(flows, count)
}

// Adds the flows carried to the first cells of `out`. Not one function with `test_excesses::fill_excess`: a sum with what stood there and a difference from
// what is released, under facts of their own; a closure for each would be longer than both.
// By index: the count stands beside the cells, as C gives it; a zip was tried, and did not prove: the library's laws of zips are of cells that are only read.
fn add_cells(constraints: usize, carried: Flows, out: &mut [i64])
    requires { Addable constraints carried out.old }
    ensures { after out ≡ overwrite (with_flows constraints carried (before out)) (before out) }
{
    for k in 0..constraints {
        let sum = Flow(out[k]) + Flow(carried.flows[k]);
        out[k] = sum.0;
    }
}

// Adds the flow on each constraint of a period's contracts as they count to the totals in `flows`, and how many were counted to `count`.
// Limits, factors and cells as C lends them.
pub fn add_flows(
    asked: AskedFlows,
    limits: &[u64],
    factors: &[i64],
    book: &[u8],
    flows: &mut [i64],
    count: &mut usize,
) -> Result<usize, Refusal>
    ensures { AddsFlows (add_flows_call asked.nodes asked.constraints asked.period limits.now factors.now book.now flows count)
        result (after flows) (after count) }
{
    test_loading::check_flows(asked, limits, factors, book, flows)?;
    if no_totals(*count, &flows[..asked.constraints]) {
        return Err(Refusal::ContractCount);
    }
    let period = Period::from(asked.period);
    let table = FactorTable::of(asked.nodes, asked.constraints, factors);
    let carried = test_flows::carry(table, period, book);
    if MAX_SUMMED - *count < carried.count {
        return Err(Refusal::ContractCount);
    }
    add_cells(asked.constraints, carried, flows);
    *count += carried.count;
    Ok(carried.count)
}

// The checks of judging totals: the cells as C lends them, since whether they hold as many as the constraints is checked here.
fn check_judged(
    constraints: usize,
    process: u64,
    limits: &[u64],
    flows: &[i64],
    count: usize,
) -> Result<(), Refusal>
    ensures { result ≡ judge_checked (judge_call constraints process limits.now flows.now count) }
{
    if MAX_CONSTRAINTS < constraints {
        return Err(Refusal::ConstraintCount);
    }
    if 2 < process {
        return Err(Refusal::ProcessNumber);
    }
    if limits.len() < constraints {
        return Err(Refusal::ShortTable);
    }
    if flows.len() < constraints {
        return Err(Refusal::ShortTable);
    }
    if grid_tables::cell_above(&limits[..constraints], MAX_LIMIT) {
        return Err(Refusal::LimitRange);
    }
    if no_totals(count, &flows[..constraints]) {
        return Err(Refusal::ContractCount);
    }
    Ok(())
}

// Judges totals of flows by the released limits of their constraints: whether the contracts that they are of are simultaneously feasible on them. Limits and
// cells as C lends them.
pub fn judge_flows(
    constraints: usize,
    process: u64,
    limits: &[u64],
    flows: &[i64],
    count: usize,
) -> Result<Verdict, Refusal>
    ensures { JudgesFlows (judge_call constraints process limits.now flows.now count) result }
{
    check_judged(constraints, process, limits, flows, count)?;
    let held = test_held::held_flows(constraints, flows);
    let loading = Loading::of(constraints, limits, &held);
    Ok(loading.verdict(Process::from(process)))
}
