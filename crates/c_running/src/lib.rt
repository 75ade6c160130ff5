// A running test for C: the answer is the refusal's number, 0 for none.
// C calls each operation by a name of its own and with raw parameters, so a body that only passes the answer on is written out for each.
#![tactic(auto)]

ghost use Rattle.lists.specs.Lent.{before, after};
ghost use Rattle.tier_rules.specs.Cells.{left_in};
ghost use Rattle.tier_running_rules.specs.OpenRunning.{open_running_on, OpensRunningForC};
ghost use Rattle.tier_running_rules.specs.AddAward.{add_award_on, AddsAwardForC};

use test_terms::Asked;

// Opens a running test of a grid, a process and a period in three lent buffers.
#[unsafe(no_mangle)]
pub extern "C" fn crr_open_running(
    nodes: usize,
    constraints: usize,
    process: u64,
    period: u64,
    limits: &[u64],
    factors: &[i64],
    awards: &[u64],
    numbers: &mut [u64],
    flows: &mut [i64],
) -> u64
    ensures { OpensRunningForC (open_running_on nodes constraints process period limits.now factors.now awards.now (before numbers) (before flows))
        result (after numbers) (after flows) }
{
    let asked = Asked {
        nodes,
        constraints,
        process,
        period,
    };
    let answer = tier_running_test::open_running(asked, limits, factors, awards, numbers, flows);
    tariff::answer_number(answer)
}

// Adds an award to a running test.
#[unsafe(no_mangle)]
pub extern "C" fn crr_add_award(
    nodes: usize,
    constraints: usize,
    process: u64,
    period: u64,
    limits: &[u64],
    factors: &[i64],
    award: &[u64],
    awards: &mut [u64],
    numbers: &mut [u64],
    flows: &mut [i64],
) -> u64
    ensures { AddsAwardForC (add_award_on nodes constraints process period limits.now factors.now award.now (before awards) (before numbers) (before flows))
        result (left_in awards numbers flows) }
{
    let asked = Asked {
        nodes,
        constraints,
        process,
        period,
    };
    let answer = tier_running_test::add_award(
        asked, limits, factors, award, awards, numbers, flows,
    );
    tariff::answer_number(answer)
}
