// A price file read into lent cells. All checks come first, in the paper's order; then all is written.
#![tactic(auto)]

ghost use Rattle.std.specs.Prelude.{◌≡◌, [], ◌∷◌, ◌≤◌, length};
ghost use Rattle.lists.specs.Lent.{before, after};
ghost use Rattle.tariff.specs.Units.{max_constraints};
ghost use Rattle.tariff.specs.Refusals.{first};
ghost use Rattle.tariff.specs.Checks.{price_range, short_table};
ghost use Rattle.layouts.specs.Files.{padding};
ghost use Rattle.layouts.specs.PriceFile.{price_bytes, prices_in, price_pad_in};
ghost use Rattle.price_rules.specs.ReadPrices.{read_prices_call, read_prices_checked, ReadsPrices};

use layouts::{PRICE_HEADER_BITS, PRICE_WIDTH};
use tariff::{MAX_CONSTRAINTS, MAX_PRICE, Period, Refusal};

// The reader's checks on a file of the right length. Asked in a clause, of the one caller that has just checked it: a type would be no plainer.
fn check_figures(constraints: usize, file: &[u8], prices: &[u64]) -> Result<(), Refusal>
    requires { (constraints ≤ max_constraints) × (length file.now ≡ price_bytes constraints) }
    ensures { result ≡ first (
        price_range (prices_in constraints (file.now)) ∷ padding (price_pad_in constraints (file.now)) ∷ short_table (length (prices.now)) constraints ∷ []) }
{
    let used = PRICE_HEADER_BITS + PRICE_WIDTH * constraints;
    if runs::field_above(file, PRICE_HEADER_BITS, PRICE_WIDTH, constraints, MAX_PRICE) {
        return Err(Refusal::PriceRange);
    }
    if bits::field(file, used, 8 * file.len() - used) != 0 {
        return Err(Refusal::Padding);
    }
    if prices.len() < constraints {
        return Err(Refusal::ShortTable);
    }
    Ok(())
}

fn check_read(constraints: usize, file: &[u8], prices: &[u64]) -> Result<(), Refusal>
    ensures { result ≡ read_prices_checked (read_prices_call constraints file.now prices.now) }
{
    if MAX_CONSTRAINTS < constraints {
        return Err(Refusal::ConstraintCount);
    }
    if file.is_empty() {
        return Err(Refusal::ShortFile);
    }
    if bits::field(file, 1, 7) != constraints as u64 {
        return Err(Refusal::PriceCount);
    }
    if file.len() != price_rules::file_bytes(constraints) {
        return Err(Refusal::FileLength);
    }
    check_figures(constraints, file, prices)
}

// Reads the prices of `constraints` constraints into the first cells of `prices`, and gives their period.
pub fn read_prices(constraints: usize, file: &[u8], prices: &mut [u64]) -> Result<Period, Refusal>
    ensures { ReadsPrices (read_prices_call constraints file.now (before prices)) result (after prices) }
{
    check_read(constraints, file, prices)?;
    runs::read_run(
        file,
        PRICE_HEADER_BITS,
        PRICE_WIDTH,
        &mut prices[..constraints],
    );
    Ok(Period::from(bits::field(file, 0, 1)))
}
