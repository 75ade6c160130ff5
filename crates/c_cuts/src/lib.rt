// The least cuts that clear a book, for C: the rows go into lent cells, and the answer is the refusal's number, 0 for none.
// C calls each operation by a name of its own and with raw parameters, so a body that only passes the answer on is written out for each.
#![tactic(auto)]

ghost use Rattle.test_rules.specs.TestBook.{test_call};
ghost use Rattle.cut_rules.specs.FindCuts.{FindsCutsForC};

use test_terms::Asked;

// Lists each contract of the period whose quantity, lowered alone, makes a failing book pass, with the least such cut, and gives how many there are.
// Its body is that of `crr_find_flows` and of the running test's entries but for what is called: C calls each by its own name, and all answer by `answer_cell`.
#[unsafe(no_mangle)]
pub extern "C" fn crr_find_cuts(
    nodes: usize,
    constraints: usize,
    process: u64,
    period: u64,
    limits: &[u64],
    factors: &[i64],
    book: &[u8],
    numbers: &mut [u64],
    cuts: &mut [u64],
    listed: &mut usize,
) -> u64
    ensures { FindsCutsForC (test_call nodes constraints process period limits.now factors.now book.now) numbers cuts result listed }
{
    let asked = Asked {
        nodes,
        constraints,
        process,
        period,
    };
    let found = cut_list::find_cuts(asked, limits, factors, book, numbers, cuts);
    tariff::answer_cell(found, listed)
}
