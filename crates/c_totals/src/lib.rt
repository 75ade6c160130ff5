// A test of any size, for C: figures go into lent cells, and the answer is the refusal's number, 0 for none.
// C calls each operation by a name of its own and with raw parameters, so a body that only passes the answer on is written out for each.
#![tactic(auto)]

ghost use Rattle.lists.specs.Lent.{after};
ghost use Rattle.test_totals.specs.AddFlows.{add_flows_call, AddsFlowsForC};
ghost use Rattle.test_totals.specs.JudgeFlows.{judge_call, JudgesFlowsForC};

use test_rules::Verdict;
use test_terms::AskedFlows;

// Adds the flow on each constraint of a period's contracts as they count to the totals in `flows`, and how many to `count`; `counted` is given how many.
#[unsafe(no_mangle)]
pub extern "C" fn crr_add_flows(
    nodes: usize,
    constraints: usize,
    period: u64,
    limits: &[u64],
    factors: &[i64],
    book: &[u8],
    flows: &mut [i64],
    count: &mut usize,
    counted: &mut usize,
) -> u64
    ensures { AddsFlowsForC (add_flows_call nodes constraints period limits.now factors.now book.now flows count)
        result (after flows) (after count) counted }
{
    let asked = AskedFlows {
        nodes,
        constraints,
        period,
    };
    let found = test_totals::add_flows(asked, limits, factors, book, flows, count);
    tariff::answer_cell(found, counted)
}

// Judges totals of flows by the released limits of their constraints, and gives the test's figures: on a pass all are 0, and only then is the set.
// Four cells are lent one by one: a function of both entries would take the answer and each of them.
#[unsafe(no_mangle)]
pub extern "C" fn crr_judge_flows(
    constraints: usize,
    process: u64,
    limits: &[u64],
    flows: &[i64],
    summed: usize,
    set: &mut u64,
    count: &mut usize,
    lowest: &mut usize,
    excess: &mut i64,
) -> u64
    ensures { JudgesFlowsForC (judge_call constraints process limits.now flows.now summed) result set count lowest excess }
{
    match test_totals::judge_flows(constraints, process, limits, flows, summed) {
        Err(refusal) => refusal.number(),
        Ok(Verdict::Pass) => {
            *set = 0;
            *count = 0;
            *lowest = 0;
            *excess = 0;
            0
        }
        Ok(
            Verdict::Fail {
                set: overloads,
                count: many,
                lowest: named,
                excess: over,
            },
        ) => {
            *set = overloads;
            *count = many;
            *lowest = named;
            *excess = over.0;
            0
        }
    }
}
