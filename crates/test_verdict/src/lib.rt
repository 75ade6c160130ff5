// The simultaneous feasibility test of a book's bytes against grid tables.
#![tactic(auto)]

ghost use Rattle.std.specs.Prelude.{◌≡◌};
ghost use Rattle.test_rules.specs.TestBook.{test_checked, TestsBook};
ghost use Rattle.test_terms.specs.Calls.{asked_test};

mod loading;

pub use loading::Loading;
use tariff::Refusal;
use test_rules::Verdict;
use test_terms::{Asked, Tested};

// The test's checks: those of the tables, then the book's own. Limits and factors as C lends them: only what passes is `Tested`.
pub fn check_test(asked: Asked, limits: &[u64], factors: &[i64], book: &[u8]) -> Result<(), Refusal>
    ensures { result ≡ test_checked (asked_test asked limits.now factors.now book.now) }
{
    test_terms::check_tables(asked, limits, factors)?;
    book_checks::check_book(asked.nodes, book)
}

// Tests a book's bytes against grid tables: whether the contracts of one period are simultaneously feasible in a process.
pub fn test_book(
    asked: Asked,
    limits: &[u64],
    factors: &[i64],
    book: &[u8],
) -> Result<Verdict, Refusal>
    ensures { TestsBook (asked_test asked limits.now factors.now book.now) result }
{
    check_test(asked, limits, factors, book)?;
    let tested = Tested::of(asked, limits, factors, book);
    let grid = tested.grid;
    let flows = test_flows::carry(grid.factors, tested.period, tested.book);
    let loading = Loading::of(grid.factors.constraints, grid.limits, &flows);
    Ok(loading.verdict(tested.process))
}
