// A grid's figures checked before they are read: limits, factors and padding of a file of the right length, and the tables' room.
#![tactic(auto)]

ghost use Rattle.std.specs.Prelude.{◌≡◌, ◌^◌, ◌<◌};
ghost use Rattle.bits.specs.Signed.{to_int};
ghost use Rattle.lists.specs.Lent.{before};
ghost use Rattle.lists.specs.Lists.{any_of};
ghost use Rattle.tariff.specs.Refusals.{first};
ghost use Rattle.tariff.specs.Checks.{factor_bad_of};
ghost use Rattle.layouts.specs.GridFile.{factor_width, factors_in};
ghost use Rattle.grid_rules.specs.Inner.{figure_checks};

use grid_checks::CountedFile;
use layouts::{FACTOR_WIDTH, LIMIT_WIDTH};
use tariff::{MAX_FACTOR, MAX_LIMIT, Refusal};

// The factors' ends as bits: the largest, and the least in two's complement.
const LARGEST_BITS: u64 = MAX_FACTOR as u64;

const LEAST_BITS: u64 = (1u64 << FACTOR_WIDTH) - LARGEST_BITS;

// Whether a factor is out of range, by its bits: above the largest, and below the least as two's complement has it.
fn bits_bad(bits: u64) -> bool
    requires { bits < 2 ^ factor_width }
    ensures { result ≡ factor_bad_of (to_int factor_width bits) }
{
    LARGEST_BITS < bits && bits < LEAST_BITS
}

// Whether a factor of the file is out of range: node by node and, within a node, constraint by constraint, up to the first that is. In nested loops, left by a
// label: 01's form for it.
fn factor_bad_in(grid: CountedFile) -> bool
    ensures { result ≡ any_of factor_bad_of (factors_in grid.entry.bytes.now) }
{
    let mut found = false;
    let mut at = grid.size.header + LIMIT_WIDTH * grid.size.constraints;
    'nodes: for node in 0..grid.size.nodes {
        for constraint in 0..grid.size.constraints {
            if bits_bad(bits::load_field(grid.bytes, at, FACTOR_WIDTH)) {
                found = true;
                break 'nodes;
            }
            at += FACTOR_WIDTH;
        }
    }
    found
}

// The reader's checks on a file of the right length. The two tables, lent so by C, are looked at for their room alone.
pub fn check_figures(grid: CountedFile, limits: &[u64], factors: &[i64]) -> Result<(), Refusal>
    ensures { result ≡ first (figure_checks grid.entry.bytes.now limits.now factors.now) }
{
    let size = grid.size;
    let used = size.used_bits();
    if runs::field_above(
        grid.bytes,
        size.header,
        LIMIT_WIDTH,
        size.constraints,
        MAX_LIMIT,
    ) {
        return Err(Refusal::LimitRange);
    }
    if factor_bad_in(grid) {
        return Err(Refusal::FactorRange);
    }
    if bits::field(grid.bytes, used, 8 * grid.bytes.len() - used) != 0 {
        return Err(Refusal::Padding);
    }
    if limits.len() < size.constraints {
        return Err(Refusal::ShortTable);
    }
    if factors.len() < size.factors() {
        return Err(Refusal::ShortTable);
    }
    Ok(())
}
