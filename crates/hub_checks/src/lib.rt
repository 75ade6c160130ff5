// What a hub is turned down for (document 02, paper 7): 11, 24 and 25.
#![tactic(auto)]

ghost use Rattle.std.specs.Prelude.{◌≡◌, false, [], ◌∷◌, ◌≤◌, ◌<◌, length};
ghost use Rattle.lists.specs.Lists.{any_of};
ghost use Rattle.tariff.specs.Units.{max_hub_nodes};
ghost use Rattle.tariff.specs.Refusals.{first};
ghost use Rattle.tariff.specs.Checks.{listed_nodes};
ghost use Rattle.hub_rules.specs.Hubs.{sum_by_of, weight_bad_of, shape_bad_of, listed, twice, hub_shape, hub_twice};

use tariff::{HUB_WEIGHT, MAX_HUB_NODES, Refusal};

// Whether a weight is not 1 to 100,000.
fn weight_bad(weight: u64) -> bool
    ensures { result ≡ weight_bad_of weight }
{
    tariff::zero_or_above(weight, HUB_WEIGHT)
}

// Whether one of the weights is not.
fn weights_bad(weights: &[u64]) -> bool
    ensures { result ≡ any_of weight_bad_of weights.now }
{
    weights.iter().any(|weight| weight_bad(*weight))
}

// The weights together. Any 64-bit numbers may be listed: they are added once each is known to be in range. `total_of` (share_checks) is the same call of the
// library: what keeps each sum small, and what each promises of it, differs.
fn total_weight(weights: &[u64]) -> u64
    requires { (length weights.now ≤ max_hub_nodes) × (any_of weight_bad_of weights.now ≡ false) }
    ensures { result ≡ sum_by_of (λ w. w) weights.now }
{
    weights.iter().sum()
}

// 24: not 1 to 32 nodes, unequal lists, or weights that leave their range or do not total 100,000.
// Nodes and weights are two lists, here and below: that they are as long is what 24 checks.
fn shape_bad(nodes: &[u64], weights: &[u64]) -> bool
    ensures { result ≡ shape_bad_of nodes.now weights.now }
{
    nodes.is_empty()
        || MAX_HUB_NODES < nodes.len()
        || nodes.len() != weights.len()
        || weights_bad(weights)
        || total_weight(weights) != HUB_WEIGHT
}

// 25: whether a node is listed again further on.
fn listed_twice(nodes: &[u64]) -> bool
    ensures { result ≡ twice nodes.now }
{
    for (i, node) in nodes.iter().enumerate() {
        if nodes[i + 1..].contains(node) {
            return true;
        }
    }
    false
}

// 24, 25.
pub fn check_shape(nodes: &[u64], weights: &[u64]) -> Result<(), Refusal>
    ensures { result ≡ first (hub_shape nodes.now weights.now ∷ hub_twice nodes.now ∷ []) }
{
    if shape_bad(nodes, weights) {
        return Err(Refusal::HubShape);
    }
    if listed_twice(nodes) {
        return Err(Refusal::HubNodeTwice);
    }
    Ok(())
}

// 11, 24, 25, of a hub of nodes below `bound`.
pub fn check_hub(bound: usize, nodes: &[u64], weights: &[u64]) -> Result<(), Refusal>
    requires { 0 < bound }
    ensures { result ≡ first (listed_nodes bound nodes.now ∷ hub_shape nodes.now weights.now ∷ hub_twice nodes.now ∷ []) }
{
    if grid_tables::listed_outside(bound, nodes) {
        return Err(Refusal::NodeNumber);
    }
    check_shape(nodes, weights)
}
