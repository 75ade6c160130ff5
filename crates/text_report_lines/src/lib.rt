// The report's lines: one for each period and process, under the heading.
#![tactic(auto)]

ghost use Rattle.std.specs.Prelude.{◌≡◌, ◌++◌, ◌+◌, ◌≤◌};
ghost use Rattle.text_format.specs.Ascii.{ascii};
ghost use Rattle.text_format.specs.Inner.{HasRoom, Puts};
ghost use Rattle.tariff.specs.Units.{max_constraints};
ghost use Rattle.tariff.specs.Refusals.{passed, first};
ghost use Rattle.layouts.specs.BookFile.{book_in};
ghost use Rattle.grid_tables.specs.Grids.{grid_by};
ghost use Rattle.book_rules.specs.BookChecks.{book_checks};
ghost use Rattle.text_report_rules.specs.Report.{period_word, process_word, period_lines, report_lines};
ghost use Rattle.text_report_rules.specs.WriteReport.{report_room};
ghost use Rattle.text_report_rules.specs.Inner.{answer_line, period_room, process_room, line_room, period_lines_room};

use grid_tables::GridTable;
use tariff::{Period, Process};
use test_rules::Verdict;
use test_verdict::Loading;
use text_format::Text;
use text_report_figures::put_figures;

// The period's word and a comma. A match for each kind of word, as `kind_field` of text_statement_lines has for its own: one function for both would take the
// words as parameters, and nothing of it would be left.
fn put_period(text: &mut Text, period: Period)
    requires { HasRoom text.old period_room }
    ensures put { Puts text.old (period_word period ++ ascii ",") text.new }
    ensures upper_bound { text.new.at ≤ text.old.at + period_room }
{
    match period {
        Period::OffPeak => text.put(b"off-peak,"),
        Period::OnPeak => text.put(b"on-peak,"),
    }
}

// The process's word and a comma.
fn put_process(text: &mut Text, process: Process)
    requires { HasRoom text.old process_room }
    ensures put { Puts text.old (process_word process ++ ascii ",") text.new }
    ensures upper_bound { text.new.at ≤ text.old.at + process_room }
{
    match process {
        Process::Annual => text.put(b"annual,"),
        Process::TierLt => text.put(b"lt,"),
        Process::Monthly => text.put(b"monthly,"),
    }
}

// The line of one period and process, from the test's answer.
fn put_line(text: &mut Text, constraints: usize, period: Period, process: Process, verdict: Verdict)
    requires { (constraints ≤ max_constraints) × HasRoom text.old line_room }
    ensures put { Puts text.old (answer_line constraints period process verdict) text.new }
    ensures upper_bound { text.new.at ≤ text.old.at + line_room }
{
    put_period(text, period);
    put_process(text, process);
    put_figures(text, constraints, verdict);
    text.put_char(b'\n');
}

// The three lines of one period. Its flows are summed once. The book is accepted for all processes and periods: `test_terms::Tested` is of one of each.
fn put_period_lines(text: &mut Text, grid: GridTable, period: Period, book: &[u8])
    requires period_lines_room_in_bounds { HasRoom text.old period_lines_room }
    requires book_accepted { first (book_checks grid.factors.nodes book.now) ≡ passed }
    ensures put { Puts text.old (period_lines (grid_by grid.entry) (book_in book.now) period) text.new }
    ensures upper_bound { text.new.at ≤ text.old.at + period_lines_room }
{
    let constraints = grid.factors.constraints;
    let flows = test_flows::carry(grid.factors, period, book);
    let loading = Loading::of(constraints, grid.limits, &flows);
    let annual = loading.verdict(Process::Annual);
    let lt = loading.verdict(Process::TierLt);
    let monthly = loading.verdict(Process::Monthly);
    put_line(text, constraints, period, Process::Annual, annual);
    put_line(text, constraints, period, Process::TierLt, lt);
    put_line(text, constraints, period, Process::Monthly, monthly);
}

// The heading and the six lines.
pub fn put_lines(text: &mut Text, grid: GridTable, book: &[u8])
    requires report_room_in_bounds { HasRoom text.old report_room }
    requires book_accepted { first (book_checks grid.factors.nodes book.now) ≡ passed }
    ensures { Puts text.old (report_lines (grid_by grid.entry) (book_in book.now)) text.new }
{
    text.put(b"period,process,verdict,overloaded,lowest,excess,constraints\n");
    put_period_lines(text, grid, Period::OffPeak, book);
    put_period_lines(text, grid, Period::OnPeak, book);
}
