// Writes the hour statement of grid.bin, book.bin and prices.bin, in the folder that it is started in, to standard output.
// A file is looked at only when those before it were taken. Where it is there and can't be read, nothing is printed: `files` has told it on standard error.
#![tactic(auto)]

use layouts::{MAX_BOOK_BYTES, MAX_PRICE_BYTES, PROGRAM_GRID_BYTES};
use text_statement_lines::LONGEST_STATEMENT;

// The buffers hold one byte more than the longest file taken, so that the length of a longer one is refused.
fn main(rt: HostRuntime) {
    let mut grid = [0u8; PROGRAM_GRID_BYTES + 1];
    let mut book = [0u8; MAX_BOOK_BYTES + 1];
    let mut prices = [0u8; MAX_PRICE_BYTES + 1];
    let mut text = [0u8; LONGEST_STATEMENT];
    let Some(grid_bytes) = files::read_file(&rt, b"grid.bin", &mut grid) else {
        return;
    };
    let nodes = taken_files::nodes_taken(&grid[..grid_bytes]);
    let Some(book_bytes) = files::read_behind(&rt, 0 < nodes, b"book.bin", &mut book) else {
        return;
    };
    let taken = taken_files::book_taken(nodes, &book[..book_bytes]);
    let Some(price_bytes) = files::read_behind(&rt, taken, b"prices.bin", &mut prices) else {
        return;
    };
    let answer = text_statement::write_statement(
        &grid[..grid_bytes],
        &book[..book_bytes],
        &prices[..price_bytes],
        &mut text,
    );
    if let Ok(bytes) = answer {
        files::print(&rt, &text[..bytes]);
    }
}
