// Migrating load (document 02, paper 5): 001's monthly transfer of contracts from LSEs that lost load to those that gained it.
#![tactic(auto)]

ghost use Rattle.std.specs.Prelude.{◌≡◌, ◌+◌, length};
ghost use Rattle.lists.specs.Lent.{before, after, overwrite};
ghost use Rattle.tariff.specs.Refusals.{first};
ghost use Rattle.layouts.specs.BookFile.{book_file, contract_count_in, book_form_in, book_in};
ghost use Rattle.migration_rules.specs.Transfers.{row_lists};
ghost use Rattle.migration_rules.specs.ContractRules.{new_book};
ghost use Rattle.migration_transfers.specs.Inner.{lists_of};
ghost use Rattle.migration_transfers.specs.Squares.{lost_in};
ghost use Rattle.book_growth.specs.Inner.{Appended};
ghost use Rattle.migration_pairs.specs.Inner.{MigrationReady};
ghost use Rattle.migration_book.specs.MigrateLoad.{migrate_load_call, MigratesLoad};
ghost use Rattle.migration_book.specs.Inner.{input_checks, Readable, Roomy, Grows};
ghost use Rattle.migration_book.specs.Growth.{old_of, new_of, grown_of};

mod migration;

use book_bits::Contracts;
use migration::Migration;
use migration_pairs::Base;
use migration_transfers::{RowLists, Square};
use tariff::{Period, Refusal};

// The checks before the square: 17, the book's own, 22. The period is C's number: 17 is looked for here.
fn check_input(
    nodes: usize,
    period: u64,
    book: &[u8],
    lists: RowLists,
    loads: &[u64],
) -> Result<(), Refusal>
    ensures { result ≡ first (input_checks nodes period book.now (lists_of lists.entry) loads.now) }
{
    if 1 < period {
        return Err(Refusal::PeriodOrKind);
    }
    book_checks::check_own(nodes, book)?;
    migration_transfers::check_figures(lists, loads)
}

// How many contracts the book grows to. `MigrationReady` stays a clause here and below: `Migration` says why.
fn grown_count(migration: Migration, square: Square) -> usize
    requires { MigrationReady square migration.loads.now }
    ensures { result ≡ migration.entry.contracts.count + length (new_of migration.entry square) }
{
    let loads = migration.loads;
    let losers = migration_pairs::losers_of(square, loads.len());
    let mut grown = migration.contracts.count;
    for i in 0..migration.contracts.count {
        let contract = migration.contracts.at(i);
        let place = migration_transfers::row_of(contract.holder);
        let row = &square[place];
        let base = Base {
            contract,
            row,
            loads,
        };
        grown += migration_pairs::new_count(base, migration.period, losers[place]);
    }
    grown
}

// Stores the new contracts behind the old ones, base contract by base contract.
// Each loop makes its own base: a function of both would be owed `RowReady` in a clause once more.
fn store_grown(file: &mut [u8], migration: Migration, square: Square) -> usize
    requires ready { MigrationReady square migration.loads.now }
    requires roomy { Roomy migration.contracts.form (old_of migration) (new_of migration square) file.old }
    ensures { Appended migration.entry.contracts.form migration.entry.contracts.count (new_of migration.entry square) (before file) (after file) result }
{
    let loads = migration.loads;
    let form = migration.contracts.form;
    let mut place = migration.contracts.count;
    for i in 0..migration.contracts.count {
        let contract = migration.contracts.at(i);
        let row = &square[migration_transfers::row_of(contract.holder)];
        let base = Base {
            contract,
            row,
            loads,
        };
        place = migration_pairs::store_new(file, form, place, base, migration.period);
    }
    place
}

// Writes the grown book: the old contracts, then the new ones.
fn write_grown(migration: Migration, square: Square, grown: usize, file: &mut [u8])
    requires ready { MigrationReady square migration.loads.now }
    requires grown_value { grown ≡ length (old_of migration) + length (new_of migration square) }
    requires roomy { Roomy migration.contracts.form (old_of migration) (new_of migration square) file.old }
    ensures { after file ≡ overwrite (book_file migration.entry.contracts.form (grown_of migration.entry square)) (before file) }
{
    let contracts = migration.contracts;
    book_growth::keep_contracts(contracts.file, contracts.form, grown, file);
    store_grown(file, migration, square);
}

// The last checks, and the book written where they pass.
fn grow(migration: Migration, square: Square, file: &mut [u8]) -> Result<usize, Refusal>
    requires { MigrationReady square migration.loads.now }
    ensures { Grows migration.entry.contracts.file.now (grown_of migration.entry square) (before file) result (after file) }
{
    let form = migration.contracts.form;
    let grown = grown_count(migration, square);
    book_growth::check_room(form, grown, file.len())?;
    write_grown(migration, square, grown, file);
    Ok(form.book_bytes(grown))
}

// Migrates by a square, behind 23.
fn migrate_by(
    book: &[u8],
    period: Period,
    square: Square,
    loads: &[u64],
    file: &mut [u8],
) -> Result<usize, Refusal>
    requires { Readable (book_form_in book.now) (contract_count_in book.now) book.now × MigrationReady square loads.now }
    ensures { Grows book.now (new_book (lost_in square) loads.now period (book_in book.now)) (before file) result (after file) }
{
    let migration = Migration {
        contracts: Contracts::of(book),
        period,
        loads,
    };
    grow(migration, square, file)
}

// Migrates the contracts of LSEs that lost load, for a grid of `nodes` nodes: rows of moved customers, netted, and the LSEs' loads.
pub fn migrate_load(
    nodes: usize,
    period: u64,
    book: &[u8],
    classes: &[u8],
    customers: &[u64],
    rates: &[u64],
    olds: &[u64],
    news: &[u64],
    loads: &[u64],
    file: &mut [u8],
) -> Result<usize, Refusal>
    ensures { MigratesLoad (migrate_load_call nodes period book.now (row_lists classes.now customers.now rates.now olds.now news.now) loads.now file)
        result (after file) }
{
    let lists = RowLists {
        classes,
        customers,
        rates,
        olds,
        news,
    };
    check_input(nodes, period, book, lists, loads)?;
    let square = migration_transfers::net_square(lists);
    if migration_transfers::loads_exceeded(square, loads) {
        return Err(Refusal::LoadExceeded);
    }
    migrate_by(book, Period::from(period), square, loads, file)
}
