// A price file written into lent bytes. All checks come first, in the paper's order; then all is written.
#![tactic(auto)]

ghost use Rattle.std.specs.Prelude.{◌≡◌, ◌≤◌, length, take};
ghost use Rattle.lists.specs.Lent.{before, after, overwrite};
ghost use Rattle.tariff.specs.Units.{max_constraints, max_price};
ghost use Rattle.layouts.specs.PriceFile.{price_bytes, price_file};
ghost use Rattle.grid_tables.specs.Inner.{GoodCells};
ghost use Rattle.price_rules.specs.WritePrices.{write_prices_call, write_prices_checked, WritesPrices};

use bits::BitWriter;
use layouts::{PRICE_HEADER_BITS, PRICE_WIDTH};
use tariff::{MAX_CONSTRAINTS, MAX_PRICE, Refusal};

fn check_write(period: u64, constraints: usize, prices: &[u64], file: &[u8]) -> Result<(), Refusal>
    ensures { result ≡ write_prices_checked (write_prices_call period constraints prices.now file.now) }
{
    if 1 < period {
        return Err(Refusal::PeriodOrKind);
    }
    if MAX_CONSTRAINTS < constraints {
        return Err(Refusal::ConstraintCount);
    }
    if prices.len() < constraints {
        return Err(Refusal::ShortTable);
    }
    if grid_tables::cell_above(&prices[..constraints], MAX_PRICE) {
        return Err(Refusal::PriceRange);
    }
    if file.len() < price_rules::file_bytes(constraints) {
        return Err(Refusal::ShortTable);
    }
    Ok(())
}

// Writes the file into the first bytes of `file`, and gives its length. Asked in a clause, of the one caller, whose checks say it: a type would be no plainer.
// The period is its number here, which is the field that is written, and the count stands beside the prices, as C gives both.
fn fill(period: u64, constraints: usize, prices: &[u64], file: &mut [u8]) -> usize
    requires { (period ≤ 1) × (constraints ≤ max_constraints) × GoodCells max_price constraints prices.now × (price_bytes constraints ≤ length file.old) }
    ensures value { result ≡ length (price_file period constraints (take constraints prices.now)) }
    ensures file_value { after file ≡ overwrite (price_file period constraints (take constraints prices.now)) (before file) }
{
    let used = PRICE_HEADER_BITS + PRICE_WIDTH * constraints;
    let size = price_rules::file_bytes(constraints);
    let start = BitWriter::new();
    let past_period = bits::put(file, start, period, 1);
    let past_count = bits::put(file, past_period, constraints as u64, 7);
    let past_prices = runs::write_run(file, past_count, &prices[..constraints], PRICE_WIDTH);
    bits::put_last(file, past_prices, 0, 8 * size - used);
    size
}

// Writes the first `constraints` prices as a file. Checks and then the file, as the grid's and the book's writers, each with its own: one for the three would take
// both as closures, and promise less plainly.
pub fn write_prices(
    period: u64,
    constraints: usize,
    prices: &[u64],
    file: &mut [u8],
) -> Result<usize, Refusal>
    ensures { WritesPrices (write_prices_call period constraints prices.now (before file)) result (after file) }
{
    check_write(period, constraints, prices, file)?;
    Ok(fill(period, constraints, prices, file))
}
