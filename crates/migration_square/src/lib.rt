// The square of net transfers given cell by cell (beyond the papers: document 02, paper 5, asks for the square and for no entry that gives it).
#![tactic(auto)]

ghost use Rattle.std.specs.Prelude.{◌≡◌, ◌+◌, ◌*◌, ◌≤◌, length};
ghost use Rattle.lists.specs.Lent.{before, after, overwrite};
ghost use Rattle.tariff.specs.Units.{max_entities};
ghost use Rattle.migration_rules.specs.Transfers.{row_lists};
ghost use Rattle.migration_transfers.specs.Inner.{lists_of, SizedRow, SizedSquare};
ghost use Rattle.migration_square.specs.NetTransfers.{net_transfers_call, net_transfers_checked, NetsTransfers};
ghost use Rattle.migration_square.specs.Inner.{row_cells, rows_cells, overwrite_at};

use migration_transfers::{Row, RowLists, Square};
use tariff::Refusal;

// The checks: 22, then 9 for fewer cells than the square has.
fn check_nets(entities: usize, lists: RowLists, place: &[i64]) -> Result<(), Refusal>
    ensures { result ≡ net_transfers_checked (net_transfers_call entities (lists_of lists.entry) place.now) }
{
    migration_transfers::check_rows(entities, lists)?;
    if place.len() < entities * entities {
        return Err(Refusal::ShortTable);
    }
    Ok(())
}

// One loser's row, a cell for each gainer, from cell `at` on. `entities ≤ max_entities` and `SizedSquare` stay clauses, as said in migration_transfers.
// By index: cell and net are at one number, and the invariant is of the cells from `at` on. Cells and place, since the promise is of all cells.
fn fill_row(entities: usize, row: Row, nets: &mut [i64], at: usize)
    requires { (entities ≤ max_entities) × (at + entities ≤ length nets.old) × SizedRow row × (at ≤ max_entities * max_entities) }
    ensures { after nets ≡ overwrite_at at (row_cells entities row) (before nets) }
{
    for j in 0..entities {
        nets[at + j] = row[j].0;
    }
}

// The square, row by row.
fn fill_square(entities: usize, square: Square, nets: &mut [i64])
    requires { (entities ≤ max_entities) × (entities * entities ≤ length nets.old) × SizedSquare square }
    ensures { after nets ≡ overwrite (rows_cells entities square entities) (before nets) }
{
    for i in 0..entities {
        fill_row(entities, square[i], nets, i * entities);
    }
}

// Nets the rows' transfers between so many LSEs: the square, row by row, into the first cells of `nets`. Classes have no effect.
pub fn net_transfers(
    entities: usize,
    classes: &[u8],
    customers: &[u64],
    rates: &[u64],
    olds: &[u64],
    news: &[u64],
    nets: &mut [i64],
) -> Result<(), Refusal>
    ensures { NetsTransfers (net_transfers_call entities (row_lists classes.now customers.now rates.now olds.now news.now) (before nets)) result (after nets) }
{
    let lists = RowLists {
        classes,
        customers,
        rates,
        olds,
        news,
    };
    check_nets(entities, lists, nets)?;
    let square = migration_transfers::net_square(lists);
    fill_square(entities, square, nets);
    Ok(())
}
