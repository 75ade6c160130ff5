// The MCC of a trading hub (document 02, paper 7): the weighted sum of its nodes' MCCs, over 100,000.
#![tactic(auto)]

ghost use Rattle.std.specs.Prelude.{◌≡◌, ◌≤◌, nat_abs};
ghost use Rattle.tariff.specs.Inner.{max_weighted};
ghost use Rattle.grid_tables.specs.Hours.{factors_by, prices_by};
ghost use Rattle.hub_rules.specs.Hubs.{hub_sum};
ghost use Rattle.hub_rules.specs.Inner.{IsHub};
ghost use Rattle.hub_mcc.specs.FindHubMcc.{find_hub_mcc_call, find_hub_mcc_checked, FindsHubMcc};

use grid_tables::HourTable;
use tariff::{Mcc, Refusal, WeightedMcc};

// A hub's MCC: the quotient rounded down, and what is left above it.
#[derive(Clone, Copy)]
pub struct HubMcc {
    pub quotient: Mcc,
    pub remainder: u64,
}

// The checks as for all nodes, then 11, 24, 25. Here and in the entry each table and list stands apart as C lends it: an `HourTable` is made of what is checked.
fn check_hub_mcc(
    nodes: usize,
    constraints: usize,
    factors: &[i64],
    prices: &[u64],
    hub: &[u64],
    weights: &[u64],
) -> Result<(), Refusal>
    ensures { result ≡ find_hub_mcc_checked (find_hub_mcc_call nodes constraints factors.now prices.now hub.now weights.now) }
{
    // No period is asked for, and no place is lent: 0 is always a period, and as many cells as nodes suffice.
    grid_tables::check_hour_tables(nodes, constraints, 0, factors, prices, nodes)?;
    hub_checks::check_hub(nodes, hub, weights)
}

// The sum of weight × MCC over the hub's nodes: no other node's MCC is worked out. Of a checked hub this loop alone reads the two lists: a type for them
// would be made by the entry to be taken apart at once.
fn weighted_sum(hour: HourTable, hub: &[u64], weights: &[u64]) -> WeightedMcc
    requires { IsHub hour.factors.nodes hub.now weights.now }
    ensures result_value { result.0 ≡ hub_sum (factors_by hour.entry) (prices_by hour.entry) hub.now weights.now }
    ensures result_bound { nat_abs result.0 ≤ max_weighted }
{
    let mut sum = WeightedMcc(0);
    for (node, weight) in hub.iter().zip(weights) {
        let mcc = hour_mcc::node_mcc(hour, *node as usize);
        sum = sum + mcc.weighted(*weight);
    }
    sum
}

// Finds the MCC of a hub of nodes and weights, as quotient rounded down and remainder.
pub fn find_hub_mcc(
    nodes: usize,
    constraints: usize,
    factors: &[i64],
    prices: &[u64],
    hub: &[u64],
    weights: &[u64],
) -> Result<HubMcc, Refusal>
    ensures { FindsHubMcc (find_hub_mcc_call nodes constraints factors.now prices.now hub.now weights.now) result }
{
    check_hub_mcc(nodes, constraints, factors, prices, hub, weights)?;
    let hour = HourTable::of(nodes, constraints, factors, prices);
    let sum = weighted_sum(hour, hub, weights);
    Ok(HubMcc {
        quotient: sum.quotient(),
        remainder: sum.remainder(),
    })
}
