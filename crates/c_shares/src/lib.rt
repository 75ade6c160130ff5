// Balancing Account shares, for C: the answer is the refusal's number, 0 for none.
// C calls each operation by a name of its own and with raw parameters, so a body that only passes the answer on is written out for each.
#![tactic(auto)]

ghost use Rattle.lists.specs.Lent.{before, after};
ghost use Rattle.share_rules.specs.ShareBalance.{share_call, SharesBalanceForC};

// Shares the balance among the coordinators by their demands, one cell each.
#[unsafe(no_mangle)]
pub extern "C" fn crr_share_balance(balance: i64, demands: &[u64], shares: &mut [i64]) -> u64
    ensures { SharesBalanceForC (share_call balance demands.now (before shares)) result (after shares) }
{
    tariff::answer_number(share_balance::share_balance(balance, demands, shares))
}
