// A grid's file read into lent tables. Its form is found once; behind the header both forms are read alike.
ghost use Rattle.std.specs.Prelude.{◌≡◌, ℕ, ◌+◌, ◌*◌, ◌≤◌, ◌<◌, length};
ghost use Rattle.lists.specs.Lent.{before, after, overwrite};
ghost use Rattle.layouts.specs.GridFile.{factor_width, limits_in, factors_in};
ghost use Rattle.grid_rules.specs.ReadGrid.{read_grid_call, read_grid_checked, ReadsGrid};
ghost use Rattle.grid_rules.specs.Inner.{most_bytes, factors_at};

use grid_checks::CountedFile;
use grid_rules::GridRead;
use layouts::{FACTOR_WIDTH, LIMIT_WIDTH};
use tariff::Refusal;

// The reader's checks. The two tables are lent so by C, here and below, and each is written apart.
fn check_read(file: &[u8], limits: &[u64], factors: &[i64]) -> Result<(), Refusal>
    ensures { result ≡ read_grid_checked (read_grid_call file.now limits.now factors.now) }
{
    grid_checks::check_size(file)?;
    grid_figures::check_figures(CountedFile::of(file), limits, factors)
}

// Reads factors, from bit `offset` on, behind at least one limit, into all of `out`.
fn read_factors(file: &[u8], offset: usize, out: &mut [i64])
    requires run_bound { offset + factor_width * length out.old ≤ 8 * length file.now }
    requires offset_bound { (length file.now ≤ most_bytes) × ((i : ℕ) → i < length out.old → 39 ≤ offset) }
    ensures { after out ≡ factors_at file.now offset (length (before out)) }
{
    for (i, factor) in out.iter_mut().enumerate() {
        *factor = bits::signed(
            bits::load_field(file, offset + FACTOR_WIDTH * i, FACTOR_WIDTH),
            FACTOR_WIDTH,
        );
    }
}

// Reads the limits and the factors into the first cells of the tables.
fn read_tables(grid: CountedFile, limits: &mut [u64], factors: &mut [i64])
    requires { (grid.size.constraints ≤ length limits.old) × (grid.size.nodes * grid.size.constraints ≤ length factors.old) }
    ensures limits_value { after limits ≡ overwrite (limits_in grid.entry.bytes.now) (before limits) }
    ensures factors_value { after factors ≡ overwrite (factors_in grid.entry.bytes.now) (before factors) }
{
    let size = grid.size;
    let count = size.factors();
    let behind_limits = size.header + LIMIT_WIDTH * size.constraints;
    runs::read_run(
        grid.bytes,
        size.header,
        LIMIT_WIDTH,
        &mut limits[..size.constraints],
    );
    read_factors(grid.bytes, behind_limits, &mut factors[..count]);
}

// Reads a grid's file: its counts, its form, and its limits and factors into the first cells of the tables.
pub fn read_grid(file: &[u8], limits: &mut [u64], factors: &mut [i64]) -> Result<GridRead, Refusal>
    ensures { ReadsGrid (read_grid_call file.now (before limits) (before factors)) result (after limits) (after factors) }
{
    check_read(file, limits, factors)?;
    let grid = CountedFile::of(file);
    read_tables(grid, limits, factors);
    Ok(GridRead {
        nodes: grid.size.nodes,
        constraints: grid.size.constraints,
        form: grid.form,
    })
}
