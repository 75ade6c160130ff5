// Finding the MCC and settling an hour for C: figures go into lent cells, and the answer is the refusal's number, 0 for none.
// C calls each operation by a name of its own and with raw parameters, so a body that only passes the answer on is written out for each.
#![tactic(auto)]

ghost use Rattle.lists.specs.Lent.{before, after};
ghost use Rattle.hour_mcc.specs.FindMcc.{find_mcc_call, FindsMccForC};
ghost use Rattle.hour_rules.specs.SettleHour.{hour_call, SettlesForC};

// Finds the MCC of all nodes, one cell each.
#[unsafe(no_mangle)]
pub extern "C" fn crr_find_mcc(
    nodes: usize,
    constraints: usize,
    factors: &[i64],
    prices: &[u64],
    mcc: &mut [i64],
) -> u64
    ensures { FindsMccForC (find_mcc_call nodes constraints factors.now prices.now (before mcc)) result (after mcc) }
{
    tariff::answer_number(hour_mcc::find_mcc(nodes, constraints, factors, prices, mcc))
}

// Settles an hour of a period: a cell of cents and a cell of the constraints that priced it for each contract, and gives the sum of the
// cents and the exact total as whole cents and parts.
#[unsafe(no_mangle)]
pub extern "C" fn crr_settle_hour(
    nodes: usize,
    constraints: usize,
    period: u64,
    factors: &[i64],
    prices: &[u64],
    book: &[u8],
    cents: &mut [i64],
    priced: &mut [u64],
    sum: &mut i64,
    whole: &mut i64,
    part: &mut u64,
) -> u64
    ensures { SettlesForC (hour_call nodes constraints period factors.now prices.now book.now) result cents priced sum whole part }
{
    match hour_settlement::settle_hour(
        nodes,
        constraints,
        period,
        factors,
        prices,
        book,
        cents,
        priced,
    ) {
        Err(refusal) => refusal.number(),
        Ok(totals) => {
            *sum = totals.sum;
            *whole = totals.whole;
            *part = totals.parts;
            0
        }
    }
}
