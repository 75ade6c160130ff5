// The feasibility report's text, rendered into a lent buffer.
#![tactic(auto)]

ghost use Rattle.lists.specs.Lent.{before, after};
ghost use Rattle.text_format.specs.Inner.{HasRoom, Puts};
ghost use Rattle.grid_tables.specs.Grids.{grid_by};
ghost use Rattle.text_files.specs.WithFiles.{with_book};
ghost use Rattle.text_report_rules.specs.Report.{report_lines};
ghost use Rattle.text_report_rules.specs.WriteReport.{report, report_room, report_call, WritesReport};

use grid_tables::GridTable;
use layouts::{PROGRAM_FACTORS, PROGRAM_GRID_BYTES};
use tariff::{MAX_CONSTRAINTS, Refusal};
use text_format::Text;
use text_report_lines::put_lines;

// Every report fits into so many bytes.
pub const REPORT_ROOM: usize = 2048;

// The report on a book's file against a grid in tables. All that it shares with `put_booked` of text_statement is how the check's answer is told apart: one
// function for both would take what is put for an accepted book as a closure.
fn put_tested(text: &mut Text, grid: GridTable, book: &[u8])
    requires { HasRoom text.old report_room }
    ensures { Puts text.old (with_book grid.entry.factors.nodes book.now (report_lines (grid_by grid.entry))) text.new }
{
    match book_checks::check_book(grid.factors.nodes, book) {
        Err(refusal) => text.put_refused(b"book", refusal),
        Ok(()) => put_lines(text, grid, book),
    }
}

// The report on two files. `put_statement` of text_statement reads its grid so too, and has no use for the limits: the tables stand in the frame of whoever
// reads them, so neither can hand them to the other.
fn put_report(text: &mut Text, grid_file: &[u8], book_file: &[u8])
    requires { HasRoom text.old report_room }
    ensures { Puts text.old (report grid_file.now book_file.now) text.new }
{
    let mut limits = [0u64; MAX_CONSTRAINTS];
    let mut factors = [0i64; PROGRAM_FACTORS];
    match grid_reading::read_within(PROGRAM_GRID_BYTES, grid_file, &mut limits, &mut factors) {
        Err(refusal) => text.put_refused(b"grid", refusal),
        Ok(read) => {
            let grid = GridTable::of(read.nodes, read.constraints, &limits, &factors);
            put_tested(text, grid, book_file);
        }
    }
}

// Writes the feasibility report of a grid's file and a book's file into the first bytes of `text`.
pub fn write_report(grid_file: &[u8], book_file: &[u8], text: &mut [u8]) -> Result<usize, Refusal>
    ensures { WritesReport (report_call grid_file.now book_file.now (before text)) result (after text) }
{
    if text.len() < REPORT_ROOM {
        return Err(Refusal::ShortTable);
    }
    let mut report = Text { buf: text, at: 0 };
    put_report(&mut report, grid_file, book_file);
    Ok(report.at)
}
