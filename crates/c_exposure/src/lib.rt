// What a book can cost, for C: prices and figures go into lent cells, and the answer is the refusal's number, 0 for none.
// C calls each operation by a name of its own and with raw parameters, so a body that only passes the answer on is written out for each.
#![tactic(auto)]

ghost use Rattle.test_rules.specs.TestBook.{test_call};
ghost use Rattle.exposure_bounds.specs.FindExposure.{FindsExposureForC};

use test_terms::Asked;

// Finds the least and the most that a book can cost, each as whole cents and parts, and prices that cost the least, one cell for each constraint.
// C calls it by this name and lends a cell for each figure, as with `crr_find_shortfall`, so each is written out.
#[unsafe(no_mangle)]
pub extern "C" fn crr_find_exposure(
    nodes: usize,
    constraints: usize,
    process: u64,
    period: u64,
    limits: &[u64],
    factors: &[i64],
    book: &[u8],
    prices: &mut [u64],
    least_whole: &mut i64,
    least_parts: &mut u64,
    most_whole: &mut i64,
    most_parts: &mut u64,
) -> u64
    ensures { FindsExposureForC (test_call nodes constraints process period limits.now factors.now book.now) result prices
        least_whole least_parts most_whole most_parts }
{
    let asked = Asked {
        nodes,
        constraints,
        process,
        period,
    };
    match exposure_bounds::find_exposure(asked, limits, factors, book, prices) {
        Err(refusal) => refusal.number(),
        Ok(found) => {
            *least_whole = found.least.whole;
            *least_parts = found.least.parts;
            *most_whole = found.most.whole;
            *most_parts = found.most.parts;
            0
        }
    }
}
