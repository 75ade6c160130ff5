// The price file's two operations for C: figures go into lent cells, and the answer is the refusal's number, 0 for none.
// C calls each operation by a name of its own and with raw parameters, so a body that only passes the answer on is written out for each.
#![tactic(auto)]

ghost use Rattle.lists.specs.Lent.{before, after};
ghost use Rattle.price_rules.specs.ReadPrices.{read_prices_call, ReadsPricesForC};
ghost use Rattle.price_rules.specs.WritePrices.{write_prices_call, WritesPricesForC};

// Reads a price file of `constraints` constraints into the first cells of `prices`, and gives its period.
#[unsafe(no_mangle)]
pub extern "C" fn crr_read_prices(
    constraints: usize,
    file: &[u8],
    prices: &mut [u64],
    period: &mut u64,
) -> u64
    ensures { ReadsPricesForC (read_prices_call constraints file.now (before prices)) result (after prices) period }
{
    match price_reading::read_prices(constraints, file, prices) {
        Err(refusal) => refusal.number(),
        Ok(found) => {
            *period = found as u64;
            0
        }
    }
}

// Writes the first `constraints` prices as a file of a period, and gives its length. One answer passed on as other entries do: C calls each by its own name.
#[unsafe(no_mangle)]
pub extern "C" fn crr_write_prices(
    period: u64,
    constraints: usize,
    prices: &[u64],
    file: &mut [u8],
    bytes: &mut usize,
) -> u64
    ensures { WritesPricesForC (write_prices_call period constraints prices.now (before file)) result (after file) bytes }
{
    let answer = price_writing::write_prices(period, constraints, prices, file);
    tariff::answer_cell(answer, bytes)
}
