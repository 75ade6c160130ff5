// A book's contracts as an hour settled them, and the figures of one line, which fit their places, so that none is looked at again.
ghost use Rattle.std.specs.Prelude.{◌≡◌, ◌<◌, get_or, pos};
ghost use Rattle.std.specs.Int.Count.{ones};
ghost use Rattle.layouts.specs.BookFile.{contract_in};
ghost use Rattle.text_statement_lines.specs.Sized.{SizedLine, SizedCells};

use book_bits::Contracts;
use tariff::Contract;

// What the line of a contract tells: its number in the book, its own figures, its cents, and how many constraints priced it.
#[derive(Clone, Copy)]
pub struct Line {
    pub number: u64,
    pub contract: Contract,
    pub cents: i64,
    pub priced: u64,
    pub ghost sized: { SizedLine number contract.holder cents priced },
}

// A book's contracts with a cell of cents and a cell of what priced it for each.
#[derive(Clone, Copy)]
pub struct SettledBook<'a> {
    pub contracts: Contracts<'a>,
    pub cents: &'a [i64],
    pub priced: &'a [u64],
    pub ghost sized: { SizedCells contracts.count cents.now priced.now },
}

impl<'a> SettledBook<'a> {
    // What the line of contract i tells.
    pub fn line(self, i: usize) -> Line
        requires { i < self.contracts.count }
        ensures number { result.number ≡ i }
        ensures contract { result.contract ≡ contract_in self.entry.contracts.form self.entry.contracts.file.now i }
        ensures cents { result.cents ≡ get_or self.entry.cents.now i (pos 0) }
        ensures priced { result.priced ≡ ones (get_or self.entry.priced.now i 0) }
    {
        Line {
            number: i as u64,
            contract: self.contracts.at(i),
            cents: self.cents[i],
            priced: u64::from(self.priced[i].count_ones()),
        }
    }
}
