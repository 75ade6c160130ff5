// What a book costs at a price list, for C: the figures go into lent cells, and the answer is the refusal's number, 0 for none.
// C calls each operation by a name of its own and with raw parameters, so a body that only passes the answer on is written out for each.
#![tactic(auto)]

ghost use Rattle.test_rules.specs.TestBook.{test_call};
ghost use Rattle.exposure_shortfall.specs.FindShortfall.{FindsShortfallForC};

use test_terms::Asked;

// Finds net payment, rent and shortfall of a book at a price list, each as whole cents and parts.
// C calls it by this name and lends a cell for each figure, as with `crr_find_exposure`, so each is written out.
#[unsafe(no_mangle)]
pub extern "C" fn crr_find_shortfall(
    nodes: usize,
    constraints: usize,
    process: u64,
    period: u64,
    limits: &[u64],
    factors: &[i64],
    prices: &[u64],
    book: &[u8],
    payment_whole: &mut i64,
    payment_parts: &mut u64,
    rent_whole: &mut i64,
    rent_parts: &mut u64,
    shortfall_whole: &mut i64,
    shortfall_parts: &mut u64,
) -> u64
    ensures { FindsShortfallForC (test_call nodes constraints process period limits.now factors.now book.now) prices.now result
        payment_whole payment_parts rent_whole rent_parts shortfall_whole shortfall_parts }
{
    let asked = Asked {
        nodes,
        constraints,
        process,
        period,
    };
    match exposure_shortfall::find_shortfall(asked, limits, factors, prices, book) {
        Err(refusal) => refusal.number(),
        Ok(found) => {
            *payment_whole = found.payment.whole;
            *payment_parts = found.payment.parts;
            *rent_whole = found.rent.whole;
            *rent_parts = found.rent.parts;
            *shortfall_whole = found.shortfall.whole;
            *shortfall_parts = found.shortfall.parts;
            0
        }
    }
}
