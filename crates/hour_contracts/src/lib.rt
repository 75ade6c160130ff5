// Settling the contracts of a book: each one's amount by a table of MCCs, its cents, what priced it, and the totals.
#![tactic(auto)]

ghost use Rattle.std.specs.Prelude.{◌≡◌, ℕ, ◌≤◌, ◌<◌, length};
ghost use Rattle.lists.specs.Lent.{before, after};
ghost use Rattle.tariff.specs.Refusals.{passed, first};
ghost use Rattle.tariff.specs.Units.{max_contracts};
ghost use Rattle.tariff.specs.ContractRules.{InRange};
ghost use Rattle.layouts.specs.BookFile.{contract_count_in, contract_in};
ghost use Rattle.book_rules.specs.BookChecks.{book_checks};
ghost use Rattle.grid_tables.specs.Hours.{factors_by, prices_by};
ghost use Rattle.hour_mcc.specs.Inner.{MccTable};
ghost use Rattle.hour_rules.specs.Inner.{SettlesFirst, SettlesBy};

use book_bits::Contracts;
use grid_tables::HourTable;
use hour_amounts::{add_settled, hour_amount};
use hour_mcc::all_mccs;
use hour_rules::{PricedHour, Totals};
use tariff::{MAX_NODES, Mcc, Period};

// Settles a book's contracts, each into its own cells.
fn settle_contracts(
    hour: PricedHour,
    mccs: &[Mcc; MAX_NODES],
    contracts: Contracts,
    cents: &mut [i64],
    sets: &mut [u64],
) -> Totals
    requires mccs_are { MccTable hour.tables mccs.now }
    requires by_index { (i : ℕ) → i < contracts.count → InRange hour.tables.factors.nodes (contract_in contracts.form contracts.file.now i) }
    requires count_in_bounds { (contracts.count ≤ max_contracts) × (contracts.count ≤ length cents.old) × (contracts.count ≤ length sets.old) }
    ensures { SettlesFirst (factors_by hour.entry.tables) (prices_by hour.entry.tables) hour.entry.period
        contracts.entry.count (contract_in contracts.entry.form contracts.entry.file.now) (before cents) (after cents) (before sets) (after sets) result }
{
    let mut totals = Totals {
        sum: 0,
        whole: 0,
        parts: 0,
    };
    for i in 0..contracts.len() {
        let c = contracts.at(i);
        let settled = hour_amount(hour, c, mccs[c.sink], mccs[c.source]);
        cents[i] = settled.cents;
        sets[i] = settled.priced;
        totals = add_settled(totals, settled);
    }
    totals
}

// Settles an hour whose tables and book no check refuses. The MCC of all nodes is worked out afresh. That no check refuses the book is asked as a fact: a
// `Tested` has it, but with limits and a process, which settling has not. Cents and sets are two tables, as C lends them.
pub fn settle(
    tables: HourTable,
    period: Period,
    book: &[u8],
    cents: &mut [i64],
    sets: &mut [u64],
) -> Totals
    requires book_value { first (book_checks tables.factors.nodes book.now) ≡ passed }
    requires book_in_bounds { (contract_count_in book.now ≤ length cents.old) × (contract_count_in book.now ≤ length sets.old) }
    ensures { SettlesBy tables.entry period book.now (before cents) (after cents) (before sets) (after sets) result }
{
    let hour = PricedHour::of(tables, period);
    // Last, before it is lent: else the table stands on the stack twice, and `settle_hour` needs more of it than crr.h says.
    let mccs = all_mccs(tables);
    settle_contracts(hour, &mccs, Contracts::of(book), cents, sets)
}
