// Flows held in lent cells from call to call: whether so many contracts can make them, and the cells in an array.
#![tactic(auto)]

ghost use Rattle.std.specs.Prelude.{◌≡◌, ◌*◌, ◌^◌, ◌≤◌, ◌<◌, length};
ghost use Rattle.lists.specs.Lists.{any_of};
ghost use Rattle.tariff.specs.Units.{max_constraints, max_flow};
ghost use Rattle.test_held.specs.Inner.{SameFlows, beyond};

use tariff::MAX_CONSTRAINTS;
use test_rules::Flows;

// The largest flow of one contract: both factors at their largest, and the quantity.
const MAX_FLOW: usize = 200000000000;

// Whether a flow is larger than so many contracts can make.
pub fn flow_beyond(flow: i64, count: usize) -> bool
    requires { max_flow * count < 2 ^ 63 }
    ensures { result ≡ beyond count flow }
{
    ((MAX_FLOW * count) as u64) < flow.unsigned_abs()
}

// Whether one of the flows is. The count is of contracts, and not of cells.
pub fn flows_beyond(flows: &[i64], count: usize) -> bool
    requires { max_flow * count < 2 ^ 63 }
    ensures { result ≡ any_of (beyond count) flows.now }
{
    flows.iter().any(|flow| flow_beyond(*flow, count))
}

// The first cells in an array, to be judged. `constraints ≤ max_constraints` is the array's length: a type for such a count would stand in this contract alone.
// The count stands beside the cells, as C gives it.
pub fn held_flows(constraints: usize, flows: &[i64]) -> Flows
    requires { (constraints ≤ max_constraints) × (constraints ≤ length flows.now) }
    ensures { SameFlows constraints flows.now result }
{
    let mut cells = [0i64; MAX_CONSTRAINTS];
    cells[..constraints].copy_from_slice(&flows[..constraints]);
    Flows {
        flows: cells,
        count: 0,
    }
}
