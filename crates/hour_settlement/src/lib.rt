// Settling an hour. All checks come first, in the paper's order; then all is written.
#![tactic(auto)]

ghost use Rattle.std.specs.Prelude.{◌≡◌};
ghost use Rattle.tariff.specs.Refusals.{first};
ghost use Rattle.hour_rules.specs.SettleHour.{hour_call, settle_checks, SettlesHour};

use grid_tables::HourTable;
use hour_contracts::settle;
use hour_rules::Totals;
use tariff::{Period, Refusal};

// The checks of settling an hour, with `cells` cells for the cents and `sets` for the sets: the tables', the book's own, 9.
// Here and in the entry the tables stand apart as C lends them: nothing of them is checked yet, and `HourTable` is for what is.
fn check_settle(
    nodes: usize,
    constraints: usize,
    period: u64,
    factors: &[i64],
    prices: &[u64],
    book: &[u8],
    cells: usize,
    sets: usize,
) -> Result<(), Refusal>
    ensures { result ≡ first (settle_checks (hour_call nodes constraints period factors.now prices.now book.now) cells sets) }
{
    // No answer of a cell a node is given: as many cells as nodes suffice.
    grid_tables::check_hour_tables(nodes, constraints, period, factors, prices, nodes)?;
    book_checks::check_book(nodes, book)?;
    let count = book_bits::contract_count(book);
    if cells < count {
        return Err(Refusal::ShortTable);
    }
    if sets < count {
        return Err(Refusal::ShortTable);
    }
    Ok(())
}

// Settles an hour of a period: a cell of cents and a cell of the constraints that priced it for each contract, the other period's 0.
pub fn settle_hour(
    nodes: usize,
    constraints: usize,
    period: u64,
    factors: &[i64],
    prices: &[u64],
    book: &[u8],
    cents: &mut [i64],
    sets: &mut [u64],
) -> Result<Totals, Refusal>
    ensures { SettlesHour (hour_call nodes constraints period factors.now prices.now book.now) result cents sets }
{
    check_settle(
        nodes,
        constraints,
        period,
        factors,
        prices,
        book,
        cents.len(),
        sets.len(),
    )?;
    let tables = HourTable::of(nodes, constraints, factors, prices);
    let totals = settle(tables, Period::from(period), book, cents, sets);
    Ok(totals)
}
