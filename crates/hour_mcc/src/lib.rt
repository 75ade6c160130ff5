// The marginal cost of congestion (MCC), node by node (002 part C). All checks come first, in the paper's order; then all is written.
#![tactic(auto)]

ghost use Rattle.std.specs.Prelude.{◌≡◌, ◌+◌, ◌*◌, ◌≤◌, ◌<◌, length, nat_abs};
ghost use Rattle.lists.specs.Lists.{list_to};
ghost use Rattle.lists.specs.Lent.{before, after, overwrite};
ghost use Rattle.tariff.specs.Units.{max_factor, max_price};
ghost use Rattle.tariff.specs.Settlement.{congestion};
ghost use Rattle.tariff.specs.Inner.{max_mcc};
ghost use Rattle.grid_tables.specs.Hours.{factors_by, prices_by};
ghost use Rattle.grid_tables.specs.Inner.{RowOf};
ghost use Rattle.hour_mcc.specs.FindMcc.{find_mcc_call, FindsMcc};
ghost use Rattle.hour_mcc.specs.Inner.{MccTable, mcc_in};

use grid_tables::HourTable;
use tariff::{MAX_NODES, Mcc, Price, Refusal};

// The product of constraint k added: from the sum of the first k products to that of the first k + 1, not yet negated. The row is the node's.
fn add_product(hour: HourTable, row: &[i64], node: usize, k: usize, sum: Mcc) -> Mcc
    requires row_is { RowOf hour.factors.nodes hour.factors.constraints hour.factors.cells.now node row.now }
    requires sum_value { sum.0 ≡ congestion (factors_by hour) (prices_by hour) node k }
    requires node_lt_nodes { (node < hour.factors.nodes) × (k < hour.factors.constraints) }
    ensures result_value { result.0 ≡ congestion (factors_by hour.entry) (prices_by hour.entry) node (k + 1) }
    ensures result_bound { nat_abs result.0 ≤ max_factor * max_price * (k + 1) }
{
    let product = Price(hour.prices[k]).times(row[k]);
    sum + product
}

// The MCC of a node (002 part C, MCCi = -(Σ PTDFik * FSPk)): the products summed from the first constraint to the last, then one negation.
// By k: `add_product` (document 01's form) and `congestion` count the products.
pub fn node_mcc(hour: HourTable, node: usize) -> Mcc
    requires node_lt_nodes { node < hour.factors.nodes }
    ensures { (result.0 ≡ mcc_in hour.entry node) × (nat_abs result.0 ≤ max_mcc) }
{
    let row = hour.factors.row(node);
    let mut sum = Mcc(0);
    for k in 0..hour.factors.constraints {
        sum = add_product(hour, row, node, k, sum);
    }
    -sum
}

// The MCC of each node, into the first cells of `out`.
pub fn fill_mcc(hour: HourTable, out: &mut [i64])
    requires nodes_in_bounds { hour.factors.nodes ≤ length out.old }
    ensures { after out ≡ overwrite (list_to hour.entry.factors.nodes (mcc_in hour.entry)) (before out) }
{
    for (node, cell) in out[..hour.factors.nodes].iter_mut().enumerate() {
        *cell = i64::from(node_mcc(hour, node));
    }
}

// The MCC of each node, afresh for an hour; those behind the nodes are not looked at.
pub fn all_mccs(hour: HourTable) -> [Mcc; MAX_NODES]
    ensures { MccTable hour.entry result }
{
    let mut mccs = [Mcc(0); MAX_NODES];
    // By index: lent as a slice, the table would stand on the stack twice, and `settle_hour` need more of it than crr.h says.
    for node in 0..hour.factors.nodes {
        mccs[node] = node_mcc(hour, node);
    }
    mccs
}

// Finds the MCC of all nodes, one cell each. C lends the tables one by one, and nothing of them is checked yet: `HourTable` is for what is.
pub fn find_mcc(
    nodes: usize,
    constraints: usize,
    factors: &[i64],
    prices: &[u64],
    mcc: &mut [i64],
) -> Result<(), Refusal>
    ensures { FindsMcc (find_mcc_call nodes constraints factors.now prices.now (before mcc)) result (after mcc) }
{
    // No period is asked for: 0 is always one.
    grid_tables::check_hour_tables(nodes, constraints, 0, factors, prices, mcc.len())?;
    fill_mcc(HourTable::of(nodes, constraints, factors, prices), mcc);
    Ok(())
}
