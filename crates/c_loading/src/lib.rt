// How full the constraints are, for C: figures go into lent cells, and the answer is the refusal's number, 0 for none.
// C calls each operation by a name of its own and with raw parameters, so a body that only passes the answer on is written out for each.
#![tactic(auto)]

ghost use Rattle.lists.specs.Lent.{before, after};
ghost use Rattle.test_loading.specs.FindFlows.{flows_call, FindsFlowsForC};
ghost use Rattle.test_loading.specs.ReleasedPercent.{ReleasesPercentForC};

use test_terms::AskedFlows;

// Finds the flow on each constraint of a period's contracts as they count, one cell each, and gives how many were counted.
#[unsafe(no_mangle)]
pub extern "C" fn crr_find_flows(
    nodes: usize,
    constraints: usize,
    period: u64,
    limits: &[u64],
    factors: &[i64],
    book: &[u8],
    flows: &mut [i64],
    counted: &mut usize,
) -> u64
    ensures { FindsFlowsForC (flows_call nodes constraints period limits.now factors.now book.now (before flows)) result (after flows) counted }
{
    let asked = AskedFlows {
        nodes,
        constraints,
        period,
    };
    let found = test_loading::find_flows(asked, limits, factors, book, flows);
    tariff::answer_cell(found, counted)
}

// Gives the share of each limit that a process releases, in percent.
#[unsafe(no_mangle)]
pub extern "C" fn crr_released_percent(process: u64, percent: &mut u64) -> u64
    ensures { ReleasesPercentForC process result percent }
{
    tariff::answer_cell(test_loading::released_percent(process), percent)
}
