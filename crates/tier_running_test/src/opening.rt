// Opening a running test: nothing is held and no tier is marked.
ghost use Rattle.lists.specs.Lent.{before, after};
ghost use Rattle.tier_running_rules.specs.OpenRunning.{open_running_on, OpensRunning};

use tariff::Refusal;
use test_terms::Asked;
use tier_rules::{FLOWS, NUMBERS};

// Opens a running test of a grid, a process and a period in three lent buffers, which stay apart as C lends them.
pub fn open_running(
    asked: Asked,
    limits: &[u64],
    factors: &[i64],
    awards: &[u64],
    numbers: &mut [u64],
    flows: &mut [i64],
) -> Result<(), Refusal>
    ensures { OpensRunning (open_running_on asked.nodes asked.constraints asked.process asked.period limits.now factors.now awards.now (before numbers) (before flows))
        result (after numbers) (after flows) }
{
    let short = tier_running_checks::state_short(awards.len(), numbers.len(), flows.len());
    tier_running_checks::check_tables(asked, limits, factors, short)?;
    numbers[..NUMBERS].fill(0);
    flows[..FLOWS].fill(0);
    Ok(())
}
