// Which files the programs take: each is looked at only when those before it were.
#![tactic(auto)]

ghost use Rattle.std.specs.Prelude.{◌≡◌};
ghost use Rattle.taken_files.specs.Taken.{nodes_taken_of, book_taken_of};

use layouts::{PROGRAM_FACTORS, PROGRAM_GRID_BYTES};
use tariff::MAX_CONSTRAINTS;

// The node count of a grid's file, and 0, which is no grid's, where the file is refused.
// Not an `Option`: `nodes_taken_of` says 0, and no book is taken for 0 nodes.
pub fn nodes_taken(file: &[u8]) -> usize
    ensures { result ≡ nodes_taken_of file.now }
{
    let mut limits = [0u64; MAX_CONSTRAINTS];
    let mut factors = [0i64; PROGRAM_FACTORS];
    match grid_reading::read_within(PROGRAM_GRID_BYTES, file, &mut limits, &mut factors) {
        Err(_) => 0,
        Ok(grid) => grid.nodes,
    }
}

// Whether a book's file is taken, for a grid of so many nodes.
pub fn book_taken(nodes: usize, file: &[u8]) -> bool
    ensures { result ≡ book_taken_of nodes file.now }
{
    book_checks::check_book(nodes, file).is_ok()
}
