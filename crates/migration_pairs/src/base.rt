// A contract that may be a base contract, with what its new contracts follow from.
ghost use Rattle.migration_pairs.specs.Inner.{RowReady};

use migration_transfers::Row;
use tariff::Contract;

// A contract, its holder's row of the square where the holder has one, and the load of each LSE: what 22 and 23 let through. The row is lent, not copied for
// each contract of a book.
// `Held`, that it is a base contract, is found by `migrates` and stays a clause of the functions behind it: another struct for them would be this one again.
#[derive(Clone, Copy)]
pub struct Base<'a> {
    pub contract: Contract,
    pub row: &'a Row,
    pub loads: &'a [u64],
    pub ghost ready: { RowReady row.now loads.now contract },
}
