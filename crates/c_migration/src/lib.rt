// Migrating load for C: the length goes into a lent cell, and the answer is the refusal's number, 0 for none.
// C calls each operation by a name of its own and with raw parameters, so a body that only passes the answer on is written out for each.
#![tactic(auto)]

ghost use Rattle.lists.specs.Lent.{after};
ghost use Rattle.migration_rules.specs.Transfers.{row_lists};
ghost use Rattle.migration_book.specs.MigrateLoad.{migrate_load_call, MigratesLoadForC};

// Migrates the contracts of LSEs that lost load, in a book's file for a grid of `nodes` nodes, and gives the new file's length.
// Its body is `crr_add_hub_contract`'s but for the entry, as said there.
#[unsafe(no_mangle)]
pub extern "C" fn crr_migrate_load(
    nodes: usize,
    period: u64,
    book: &[u8],
    classes: &[u8],
    customers: &[u64],
    rates: &[u64],
    olds: &[u64],
    news: &[u64],
    loads: &[u64],
    file: &mut [u8],
    bytes: &mut usize,
) -> u64
    ensures { MigratesLoadForC (migrate_load_call nodes period book.now (row_lists classes.now customers.now rates.now olds.now news.now) loads.now file)
        result (after file) bytes }
{
    let answer = migration_book::migrate_load(
        nodes, period, book, classes, customers, rates, olds, news, loads, file,
    );
    tariff::answer_cell(answer, bytes)
}
