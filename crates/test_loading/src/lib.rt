// How full the constraints are: the flow on each of a period's contracts as they count, and the share of each limit that a process releases.
#![tactic(auto)]

ghost use Rattle.std.specs.Prelude.{◌≡◌, ℕ, ◌^◌, ◌≤◌, ◌<◌, length, get_or, pos, nat_abs};
ghost use Rattle.lists.specs.Lists.{list_to};
ghost use Rattle.lists.specs.Lent.{before, after, overwrite};
ghost use Rattle.tariff.specs.Units.{max_constraints};
ghost use Rattle.test_loading.specs.FindFlows.{asked_flows, find_flows_checked, FindsFlows};
ghost use Rattle.test_loading.specs.ReleasedPercent.{ReleasesPercent};

use grid_tables::FactorTable;
use tariff::{Period, Process, Refusal};
use test_rules::Flows;
use test_terms::{Asked, AskedFlows};

// The flows carried, into the first cells of `out`. `constraints ≤ max_constraints` is the array's length; no `Loading`, since no limit is read here.
// The count stands beside the cells, as C gives it.
pub fn fill_flows(constraints: usize, carried: Flows, out: &mut [i64])
    requires constraints_le_max_constraints { (constraints ≤ max_constraints) × (constraints ≤ length out.old) }
    requires by_index { (k : ℕ) → k < constraints → nat_abs (get_or carried.flows k (pos 0)) < 2 ^ 62 }
    ensures { after out ≡ overwrite (list_to constraints (λ (k : ℕ). get_or carried.flows k (pos 0))) (before out) }
{
    out[..constraints].copy_from_slice(&carried.flows[..constraints]);
}

// The checks of finding the flows, with `place` for them: the test's, then 9. Limits and factors as C lends them: they are no `GridTable` yet.
pub fn check_flows(
    asked: AskedFlows,
    limits: &[u64],
    factors: &[i64],
    book: &[u8],
    place: &[i64],
) -> Result<(), Refusal>
    ensures { result ≡ find_flows_checked (asked_flows asked limits.now factors.now book.now place.now) }
{
    // No process is asked for: 0 is always one.
    let as_test = Asked {
        nodes: asked.nodes,
        constraints: asked.constraints,
        process: 0,
        period: asked.period,
    };
    test_verdict::check_test(as_test, limits, factors, book)?;
    if place.len() < asked.constraints {
        return Err(Refusal::ShortTable);
    }
    Ok(())
}

// Finds the flow on each constraint of a period's contracts as they count, one cell each, and how many were counted.
pub fn find_flows(
    asked: AskedFlows,
    limits: &[u64],
    factors: &[i64],
    book: &[u8],
    flows: &mut [i64],
) -> Result<usize, Refusal>
    ensures { FindsFlows (asked_flows asked limits.now factors.now book.now (before flows)) result (after flows) }
{
    check_flows(asked, limits, factors, book, flows)?;
    let period = Period::from(asked.period);
    let table = FactorTable::of(asked.nodes, asked.constraints, factors);
    let carried = test_flows::carry(table, period, book);
    fill_flows(asked.constraints, carried, flows);
    Ok(carried.count)
}

// The share of each limit that a process releases, by the process's number.
pub fn released_percent(process: u64) -> Result<u64, Refusal>
    ensures { ReleasesPercent process result }
{
    if 2 < process {
        return Err(Refusal::ProcessNumber);
    }
    Ok(Process::from(process).percent())
}
