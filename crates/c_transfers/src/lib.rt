// The square of net transfers for C: the answer is the refusal's number, 0 for none.
// C calls each operation by a name of its own and with raw parameters, so a body that only passes the answer on is written out for each.
#![tactic(auto)]

ghost use Rattle.lists.specs.Lent.{before, after};
ghost use Rattle.migration_rules.specs.Transfers.{row_lists};
ghost use Rattle.migration_square.specs.NetTransfers.{net_transfers_call, NetsTransfersForC};

// Nets the rows' transfers between so many LSEs: the square, row by row, into the first cells of `nets`.
#[unsafe(no_mangle)]
pub extern "C" fn crr_net_transfers(
    lses: usize,
    classes: &[u8],
    customers: &[u64],
    rates: &[u64],
    olds: &[u64],
    news: &[u64],
    nets: &mut [i64],
) -> u64
    ensures { NetsTransfersForC (net_transfers_call lses (row_lists classes.now customers.now rates.now olds.now news.now) (before nets)) result (after nets) }
{
    tariff::answer_number(migration_square::net_transfers(
        lses, classes, customers, rates, olds, news, nets,
    ))
}
