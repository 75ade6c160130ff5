// Marks of a running test for C: the answer is the refusal's number, 0 for none.
// C calls each operation by a name of its own and with raw parameters, so a body that only passes the answer on is written out for each.
#![tactic(auto)]

ghost use Rattle.lists.specs.Lent.{before, after};
ghost use Rattle.tier_mark_rules.specs.MarkTier.{mark_tier_call, MarksTierForC};
ghost use Rattle.tier_mark_rules.specs.ReturnToTier.{return_to_tier_call, ReturnsToTierForC};

// Marks a tier of a running test.
#[unsafe(no_mangle)]
pub extern "C" fn crr_mark_tier(tier: u64, numbers: &mut [u64], flows: &mut [i64]) -> u64
    ensures { MarksTierForC (mark_tier_call tier (before numbers) (before flows)) result (after numbers) (after flows) }
{
    tariff::answer_number(tier_marks::mark_tier(tier, numbers, flows))
}

// Returns to a tier's mark.
#[unsafe(no_mangle)]
pub extern "C" fn crr_return_to_tier(tier: u64, numbers: &mut [u64], flows: &mut [i64]) -> u64
    ensures { ReturnsToTierForC (return_to_tier_call tier (before numbers) (before flows)) result (after numbers) (after flows) }
{
    tariff::answer_number(tier_marks::return_to_tier(tier, numbers, flows))
}
