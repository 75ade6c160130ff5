// Marks of a running test: a tier is marked, and returned to. Cells are copied and compared, and nothing is worked out. A state is two buffers of their own
// types, `numbers` and `flows`, since C lends it so.
#![tactic(auto)]

ghost use Rattle.std.specs.Prelude.{◌≡◌};
ghost use Rattle.lists.specs.Lent.{before, after};
ghost use Rattle.tier_mark_rules.specs.MarkTier.{mark_tier_call, mark_tier_checked, MarksTier};
ghost use Rattle.tier_mark_rules.specs.ReturnToTier.{return_to_tier_call, return_to_tier_checked, ReturnsToTier};

use tariff::Refusal;
use tier_mark_cells::MARK;
use tier_rules::{BLOCK, FLOWS, MAX_TIER, NUMBERS};

// 9 for the buffers, and 20 for a number that is no tier's.
fn check_tier(tier: u64, numbers: &[u64], flows: &[i64]) -> Result<(), Refusal>
    ensures { result ≡ mark_tier_checked (mark_tier_call tier numbers.now flows.now) }
{
    if numbers.len() < NUMBERS {
        return Err(Refusal::ShortTable);
    }
    if flows.len() < FLOWS {
        return Err(Refusal::ShortTable);
    }
    if tier == 0 {
        return Err(Refusal::TierMark);
    }
    if MAX_TIER < tier {
        return Err(Refusal::TierMark);
    }
    Ok(())
}

// Marks a tier: the awards held, their count and their flows are kept to come back to.
pub fn mark_tier(tier: u64, numbers: &mut [u64], flows: &mut [i64]) -> Result<(), Refusal>
    ensures { MarksTier (mark_tier_call tier (before numbers) (before flows)) result (after numbers) (after flows) }
{
    check_tier(tier, numbers, flows)?;
    let i = tier as usize;
    tier_mark_cells::mark_numbers(numbers, i);
    tier_mark_cells::copy_block(flows, 0, BLOCK * i);
    Ok(())
}

// The checks of returning: those of marking, then 20 for a mark that is not set.
fn check_return(tier: u64, numbers: &[u64], flows: &[i64]) -> Result<(), Refusal>
    ensures { result ≡ return_to_tier_checked (return_to_tier_call tier numbers.now flows.now) }
{
    check_tier(tier, numbers, flows)?;
    if numbers[MARK * (tier as usize) - 1] == 0 {
        return Err(Refusal::TierMark);
    }
    Ok(())
}

// Returns to a tier's mark: later awards are dropped, and marks made when more were held. The steps are those of `mark_tier`, but the check, the numbers and
// the way that flows go are others: one function would take all three.
pub fn return_to_tier(tier: u64, numbers: &mut [u64], flows: &mut [i64]) -> Result<(), Refusal>
    ensures { ReturnsToTier (return_to_tier_call tier (before numbers) (before flows)) result (after numbers) (after flows) }
{
    check_return(tier, numbers, flows)?;
    let i = tier as usize;
    tier_mark_cells::return_numbers(numbers, i);
    tier_mark_cells::copy_block(flows, BLOCK * i, 0);
    Ok(())
}
