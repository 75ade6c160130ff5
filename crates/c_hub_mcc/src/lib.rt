// Finding a hub's MCC for C: the two figures go into lent cells, and the answer is the refusal's number, 0 for none.
// C calls each operation by a name of its own and with raw parameters, so a body that only passes the answer on is written out for each.
#![tactic(auto)]

ghost use Rattle.hub_mcc.specs.FindHubMcc.{find_hub_mcc_call, FindsHubMccForC};

// Finds the MCC of a hub of nodes and weights, as quotient rounded down and remainder.
#[unsafe(no_mangle)]
pub extern "C" fn crr_find_hub_mcc(
    nodes: usize,
    constraints: usize,
    factors: &[i64],
    prices: &[u64],
    hub: &[u64],
    weights: &[u64],
    quotient: &mut i64,
    remainder: &mut u64,
) -> u64
    ensures { FindsHubMccForC (find_hub_mcc_call nodes constraints factors.now prices.now hub.now weights.now) result quotient remainder }
{
    match hub_mcc::find_hub_mcc(nodes, constraints, factors, prices, hub, weights) {
        Err(refusal) => refusal.number(),
        Ok(found) => {
            *quotient = i64::from(found.quotient);
            *remainder = found.remainder;
            0
        }
    }
}
