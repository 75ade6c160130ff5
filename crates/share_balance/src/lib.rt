// The Balancing Account's balance shared by Measured Demand, to the cent (document 02, paper 13).
#![tactic(auto)]

ghost use Rattle.std.specs.Prelude.{◌≡◌, ◌≤◌, ◌<◌, length, nat_abs};
ghost use Rattle.lists.specs.Lent.{before, after, overwrite};
ghost use Rattle.largest_remainders.specs.Ranks.{add_to};
ghost use Rattle.largest_remainders.specs.Shares.{whole};
ghost use Rattle.share_rules.specs.ShareBalance.{share_call, demand_of, signed_like_of, balance_share, shares_of, SharesBalance};
ghost use Rattle.share_rules.specs.Inner.{max_demand_total, Weighed, RoundedCents, Cut};

use tariff::Refusal;

// So many cents with the balance's sign.
fn signed_like(balance: i64, cents: u64) -> i64
    requires { cents ≤ max_demand_total }
    ensures { (result ≡ signed_like_of balance cents) × (nat_abs result ≤ max_demand_total) }
{
    if balance < 0 {
        -(cents as i64)
    } else {
        cents as i64
    }
}

// Notes each coordinator's whole cents, and its remainder and number as one, and gives the sum of the whole cents.
// Wholes and keys are two arrays, not one of pairs: `threshold` takes the keys as a slice.
fn fill_wholes(size: u64, sum: u64, demands: &[u64], wholes: &mut [u64], keys: &mut [u64]) -> u64
    requires weighed { Weighed size sum demands.now }
    requires demands_in_bounds { (length demands.now ≤ length wholes.old) × (length demands.now ≤ length keys.old) }
    ensures value { result ≡ add_to (length demands.now) (whole (length demands.now) (demand_of demands.now) size) }
    ensures rounded_cents { RoundedCents size demands.now (after wholes) (after keys) }
{
    let mut given = 0;
    for (i, demand) in demands.iter().enumerate() {
        let product = size * demand;
        let cents = product / sum;
        given += cents;
        wholes[i] = cents;
        keys[i] = product % sum * 256 + (255 - i) as u64;
    }
    given
}

// The share of coordinator i: its whole cents, and a leftover one where its key is `least` or above.
fn share_at(
    balance: i64,
    least: u64,
    demands: &[u64],
    wholes: &[u64],
    keys: &[u64],
    i: usize,
) -> i64
    requires { Cut balance least demands.now wholes.now keys.now × (i < length demands.now) }
    ensures { (result ≡ balance_share balance demands.now i) × (nat_abs result ≤ max_demand_total) }
{
    if least <= keys[i] {
        signed_like(balance, wholes[i] + 1)
    } else {
        signed_like(balance, wholes[i])
    }
}

// Each share, into the first cells of `shares`. By index: four slices are read at it.
fn fill_shares(
    balance: i64,
    least: u64,
    demands: &[u64],
    wholes: &[u64],
    keys: &[u64],
    shares: &mut [i64],
)
    requires { Cut balance least demands.now wholes.now keys.now × (length demands.now ≤ length shares.old) }
    ensures { after shares ≡ overwrite (shares_of balance demands.now) (before shares) }
{
    for i in 0..demands.len() {
        shares[i] = share_at(balance, least, demands, wholes, keys, i);
    }
}

// Shares the balance among the coordinators by their demands, one cell each.
pub fn share_balance(balance: i64, demands: &[u64], shares: &mut [i64]) -> Result<(), Refusal>
    ensures { SharesBalance (share_call balance demands.now (before shares)) result (after shares) }
{
    share_checks::check_share(balance, demands, shares)?;
    let size = balance.unsigned_abs();
    let sum = share_checks::total_of(demands);
    let mut wholes = [0u64; 256];
    let mut keys = [0u64; 256];
    let given = fill_wholes(size, sum, demands, &mut wholes, &mut keys);
    let least = largest_remainders::threshold(&keys[..demands.len()], sum * 256, size - given);
    fill_shares(balance, least, demands, &wholes, &keys, shares);
    Ok(())
}
