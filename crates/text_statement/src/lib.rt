// The hour statement's text, rendered into a lent buffer. The files are checked one after the other, each once.
#![tactic(auto)]

ghost use Rattle.std.specs.Prelude.{◌≡◌};
ghost use Rattle.lists.specs.Lent.{before, after};
ghost use Rattle.text_format.specs.Inner.{HasRoom, Puts};
ghost use Rattle.tariff.specs.Refusals.{passed, first};
ghost use Rattle.tariff.specs.Units.{factors_of};
ghost use Rattle.layouts.specs.BookFile.{book_in};
ghost use Rattle.grid_tables.specs.Hours.{factors_by, prices_by};
ghost use Rattle.book_rules.specs.BookChecks.{book_checks};
ghost use Rattle.text_statement_lines.specs.Lines.{lines, longest_statement};
ghost use Rattle.text_statement.specs.WriteStatement.{statement, statement_call, WritesStatement};
ghost use Rattle.text_statement.specs.Inner.{priced_text, booked_text};

use book_bits::Contracts;
use grid_tables::{FactorTable, HourTable};
use layouts::{PROGRAM_FACTORS, PROGRAM_GRID_BYTES};
use tariff::{MAX_CONSTRAINTS, MAX_CONTRACTS, Period, Refusal};
use text_format::Text;
use text_statement_lines::{LONGEST_STATEMENT, SettledBook};

// The lines of an hour whose tables and book no check refuses. The room is asked here and of the three that hand the text on: each part that is put leaves less,
// so `Text` says nothing of it.
fn put_settled(text: &mut Text, hour: HourTable, period: Period, book: &[u8])
    requires longest_statement_in_bounds { HasRoom text.old longest_statement }
    requires book_value { first (book_checks hour.factors.nodes book.now) ≡ passed }
    ensures { Puts text.old (lines (factors_by hour.entry) (prices_by hour.entry) period (book_in book.now)) text.new }
{
    let mut cents = [0i64; MAX_CONTRACTS];
    let mut priced = [0u64; MAX_CONTRACTS];
    let totals = hour_contracts::settle(hour, period, book, &mut cents, &mut priced);
    let settled = SettledBook {
        contracts: Contracts::of(book),
        cents: &cents,
        priced: &priced,
    };
    text_statement_lines::put_lines(text, period, settled, totals);
}

// The statement of a grid and a book that are accepted. Of the book's bytes, of which `settle` asks the same: a type for them would be taken apart at once.
fn put_priced(text: &mut Text, grid: FactorTable, book: &[u8], price_file: &[u8])
    requires longest_statement_in_bounds { HasRoom text.old longest_statement }
    requires book_value { first (book_checks grid.nodes book.now) ≡ passed }
    ensures { Puts text.old
        (priced_text (factors_of grid.entry.nodes grid.entry.constraints grid.entry.cells.now) (book_in book.now) price_file.now) text.new }
{
    let mut prices = [0u64; MAX_CONSTRAINTS];
    match price_reading::read_prices(grid.constraints, price_file, &mut prices) {
        Err(refusal) => text.put_refused(b"prices", refusal),
        Ok(period) => {
            let hour = HourTable::of(grid.nodes, grid.constraints, grid.cells, &prices);
            put_settled(text, hour, period, book);
        }
    }
}

// The statement of a grid that is accepted. Each step checks a file and goes on with its own figures, as the report's do: one function for all would take what
// follows as a closure, with its promise beside.
fn put_booked(text: &mut Text, grid: FactorTable, book: &[u8], price_file: &[u8])
    requires { HasRoom text.old longest_statement }
    ensures { Puts text.old
        (booked_text (factors_of grid.entry.nodes grid.entry.constraints grid.entry.cells.now) book.now price_file.now) text.new }
{
    match book_checks::check_book(grid.nodes, book) {
        Err(refusal) => text.put_refused(b"book", refusal),
        Ok(()) => put_priced(text, grid, book, price_file),
    }
}

// The statement of three files.
fn put_statement(text: &mut Text, grid_file: &[u8], book_file: &[u8], price_file: &[u8])
    requires { HasRoom text.old longest_statement }
    ensures { Puts text.old (statement grid_file.now book_file.now price_file.now) text.new }
{
    let mut limits = [0u64; MAX_CONSTRAINTS];
    let mut factors = [0i64; PROGRAM_FACTORS];
    match grid_reading::read_within(PROGRAM_GRID_BYTES, grid_file, &mut limits, &mut factors) {
        Err(refusal) => text.put_refused(b"grid", refusal),
        Ok(grid) => {
            let table = FactorTable::of(grid.nodes, grid.constraints, &factors);
            put_booked(text, table, book_file, price_file);
        }
    }
}

// Writes the hour statement of a grid's, a book's and a price file into the first bytes of `text`. `write_report` has a room and a text of its own: one function
// for both would take what is put as a closure, with its promise beside.
pub fn write_statement(
    grid_file: &[u8],
    book_file: &[u8],
    price_file: &[u8],
    text: &mut [u8],
) -> Result<usize, Refusal>
    ensures { WritesStatement (statement_call grid_file.now book_file.now price_file.now (before text)) result (after text) }
{
    if text.len() < LONGEST_STATEMENT {
        return Err(Refusal::ShortTable);
    }
    let mut statement = Text { buf: text, at: 0 };
    put_statement(&mut statement, grid_file, book_file, price_file);
    Ok(statement.at)
}
