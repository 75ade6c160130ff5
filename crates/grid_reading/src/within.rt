// A grid's file read for a program that takes files of at most so many bytes.
ghost use Rattle.lists.specs.Lent.{before, after};
ghost use Rattle.grid_rules.specs.ReadGrid.{read_grid_call, ReadsWithin};

use crate::reading;
use grid_rules::GridRead;
use tariff::Refusal;

// Reads a grid's file as `read_grid` does, into the same two tables; one of more than `most` bytes is refused by its length, where no earlier check refuses it.
pub fn read_within(
    most: usize,
    file: &[u8],
    limits: &mut [u64],
    factors: &mut [i64],
) -> Result<GridRead, Refusal>
    ensures { ReadsWithin most (read_grid_call file.now (before limits) (before factors)) result (after limits) (after factors) }
{
    grid_checks::check_size(file)?;
    if most < file.len() {
        return Err(Refusal::FileLength);
    }
    reading::read_grid(file, limits, factors)
}
