// What load is migrated in and by, but for the square.
ghost use Rattle.migration_book.specs.Inner.{Readable};

use book_bits::Contracts;
use tariff::Period;

// A book's contracts, whose quantities are in range, the period, and the load of each LSE. The square stands beside it, and `MigrationReady` of both is a clause:
// a struct of references with an array of arrays of `Transfer`s was tried, and the borrow checker has no rule for making one.
#[derive(Clone, Copy)]
pub struct Migration<'a, 'b> {
    pub contracts: Contracts<'a>,
    pub period: Period,
    pub loads: &'b [u64],
    pub ghost readable: { Readable contracts.form contracts.count contracts.file.now },
}
