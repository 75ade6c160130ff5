// The test for C: its figures go into lent cells, and the answer is the refusal's number, 0 for none.
// C calls each operation by a name of its own and with raw parameters, so a body that only passes the answer on is written out for each.
#![tactic(auto)]

ghost use Rattle.test_rules.specs.TestBook.{test_call, TestsBookForC};

use test_rules::Verdict;
use test_terms::Asked;

// Tests a book's bytes against grid tables for a process and a period, and gives the test's figures: on a pass all are 0, and only then is the set.
// Four cells are lent one by one: a function of both entries would take the answer and each of them.
#[unsafe(no_mangle)]
pub extern "C" fn crr_test_book(
    nodes: usize,
    constraints: usize,
    process: u64,
    period: u64,
    limits: &[u64],
    factors: &[i64],
    book: &[u8],
    set: &mut u64,
    count: &mut usize,
    lowest: &mut usize,
    excess: &mut i64,
) -> u64
    ensures { TestsBookForC (test_call nodes constraints process period limits.now factors.now book.now) result set count lowest excess }
{
    let asked = Asked {
        nodes,
        constraints,
        process,
        period,
    };
    match test_verdict::test_book(asked, limits, factors, book) {
        Err(refusal) => refusal.number(),
        Ok(Verdict::Pass) => {
            *set = 0;
            *count = 0;
            *lowest = 0;
            *excess = 0;
            0
        }
        Ok(
            Verdict::Fail {
                set: overloads,
                count: many,
                lowest: named,
                excess: over,
            },
        ) => {
            *set = overloads;
            *count = many;
            *lowest = named;
            *excess = over.0;
            0
        }
    }
}
