// What input is turned down for ("When input is turned down"), by meaning and by the paper's number.
ghost use Rattle.std.specs.Prelude.{◌≡◌, ◌||◌, eqb, ltb};
ghost use Rattle.tariff.specs.Refusals.{number_of, number_in, found_or};
ghost use Rattle.tariff.specs.Checks.{nodes_outside_of, node_count, quantity_range};

use crate::{MAX_NODES, MAX_QUANTITY};

// Why input is turned down ("When input is turned down"): one case for each of the papers' numbers. 12 is no longer given (document 02, paper 6).
#[derive(Clone, Copy, Debug, PartialEq, Eq)]
pub enum Refusal {
    ShortFile = 1,
    NodeCount = 2,
    ConstraintCount = 3,
    SpareBits = 4,
    FileLength = 5,
    LimitRange = 6,
    FactorRange = 7,
    Padding = 8,
    ShortTable = 9,
    ContractCount = 10,
    NodeNumber = 11,
    QuantityRange = 13,
    PriceCount = 14,
    PriceRange = 15,
    ProcessNumber = 16,
    PeriodOrKind = 17,
    HolderRange = 18,
    NoSuchDate = 19,
    TierMark = 20,
    AwardOverload = 21,
    MigrationRange = 22,
    LoadExceeded = 23,
    HubShape = 24,
    HubNodeTwice = 25,
    ShareRange = 26,
    NoDemand = 27,
}

impl Refusal {
    // C takes a refusal by its number, and programs and other languages do through C.
    pub fn number(self) -> u64
        ensures { result ≡ number_of self }
    {
        self as u64
    }
}

// An answer as C takes it: the refusal's number, 0 for none.
pub fn answer_number<T: Copy>(answer: Result<T, Refusal>) -> u64
    ensures { result ≡ number_in answer }
{
    match answer {
        Err(refusal) => refusal.number(),
        Ok(_) => 0,
    }
}

// The same, with what was found in a lent cell; a refusal leaves the cell.
pub fn answer_cell<T: Copy>(answer: Result<T, Refusal>, cell: &mut T) -> u64
    ensures number { result ≡ number_in answer }
    ensures cell { cell.new ≡ found_or answer cell.old }
{
    match answer {
        Err(refusal) => refusal.number(),
        Ok(found) => {
            *cell = found;
            0
        }
    }
}

// Whether a number is 0 or above the most that it may be.
pub fn zero_or_above(number: u64, most: u64) -> bool
    ensures { result ≡ (eqb number 0 || ltb most number) }
{
    number == 0 || most < number
}

// 2: no node, or more than so many.
pub fn nodes_outside(most: usize, nodes: usize) -> bool
    ensures { result ≡ (nodes_outside_of most nodes).fails }
{
    zero_or_above(nodes as u64, most as u64)
}

// The same of a stated count.
pub fn nodes_bad(nodes: usize) -> bool
    ensures { result ≡ (node_count nodes).fails }
{
    nodes_outside(MAX_NODES, nodes)
}

// 13: 0 or too large. A number is looked at before it becomes a quantity.
pub fn quantity_bad(number: u64) -> bool
    ensures { result ≡ (quantity_range number).fails }
{
    zero_or_above(number, MAX_QUANTITY)
}
