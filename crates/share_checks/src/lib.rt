// The checks before a balance is shared, and the total of the demands.
#![tactic(auto)]

ghost use Rattle.std.specs.Prelude.{◌≡◌, ◌≤◌, ◌<◌};
ghost use Rattle.tariff.specs.Checks.{coordinator_count, balance_range};
ghost use Rattle.share_rules.specs.ShareBalance.{share_call, share_checked, total_demand};
ghost use Rattle.share_rules.specs.Inner.{max_demand_total, DemandsIn};

use tariff::{MAX_BALANCE, MAX_COORDINATORS, MAX_DEMAND, Refusal};

// The least balance.
const MIN_BALANCE: i64 = -MAX_BALANCE;

// 26, of the count: none, or too many. `migration_transfers::entity_count_bad` is the same of LSEs: what the two share is `zero_or_above`.
fn count_bad(count: usize) -> bool
    ensures { result ≡ (coordinator_count count).fails }
{
    tariff::zero_or_above(count as u64, MAX_COORDINATORS as u64)
}

// 26, of the balance: the least i64 has no size in an i64, so it is compared first. As short as `grid_tables::factor_bad`, of other bounds: one function of both
// would take the bounds, and ask that the one is the other's opposite.
fn balance_bad(balance: i64) -> bool
    ensures { result ≡ (balance_range balance).fails }
{
    balance < MIN_BALANCE || MAX_BALANCE < balance
}

// The total of the demands. `total_weight` (hub_checks) is the same call of the library: what keeps each sum small, and what each promises of it, differs.
pub fn total_of(demands: &[u64]) -> u64
    requires { DemandsIn demands.now }
    ensures { (result ≡ total_demand demands.now) × (result ≤ max_demand_total) }
{
    demands.iter().sum()
}

// The checks: 26, 27, 9.
pub fn check_share(balance: i64, demands: &[u64], place: &[i64]) -> Result<(), Refusal>
    ensures { result ≡ share_checked (share_call balance demands.now place.now) }
{
    if count_bad(demands.len()) {
        return Err(Refusal::ShareRange);
    }
    if balance_bad(balance) {
        return Err(Refusal::ShareRange);
    }
    if grid_tables::cell_above(demands, MAX_DEMAND) {
        return Err(Refusal::ShareRange);
    }
    if total_of(demands) == 0 {
        return Err(Refusal::NoDemand);
    }
    if place.len() < demands.len() {
        return Err(Refusal::ShortTable);
    }
    Ok(())
}
