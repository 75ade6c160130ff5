// The two texts for C: the length goes into a lent cell, and the answer is the refusal's number, 0 for none.
// C calls each operation by a name of its own and with raw parameters, so a body that only passes the answer on is written out for each.
#![tactic(auto)]

ghost use Rattle.lists.specs.Lent.{before, after};
ghost use Rattle.text_report_rules.specs.WriteReport.{report_call, WritesReportForC};
ghost use Rattle.text_statement.specs.WriteStatement.{statement_call, WritesStatementForC};

// Writes the feasibility report of a grid's file and a book's file into the first bytes of `text`, and gives its length.
// One answer passed on as other entries do: C calls each by its own name.
#[unsafe(no_mangle)]
pub extern "C" fn crr_write_report(
    grid_file: &[u8],
    book_file: &[u8],
    text: &mut [u8],
    bytes: &mut usize,
) -> u64
    ensures { WritesReportForC (report_call grid_file.now book_file.now (before text)) result (after text) bytes }
{
    let answer = text_report::write_report(grid_file, book_file, text);
    tariff::answer_cell(answer, bytes)
}

// Writes the hour statement of a grid's, a book's and a price file into the first bytes of `text`, and gives its length.
// One answer passed on as other entries do: C calls each by its own name.
#[unsafe(no_mangle)]
pub extern "C" fn crr_write_statement(
    grid_file: &[u8],
    book_file: &[u8],
    price_file: &[u8],
    text: &mut [u8],
    bytes: &mut usize,
) -> u64
    ensures { WritesStatementForC (statement_call grid_file.now book_file.now price_file.now (before text)) result (after text) bytes }
{
    let answer = text_statement::write_statement(grid_file, book_file, price_file, text);
    tariff::answer_cell(answer, bytes)
}
