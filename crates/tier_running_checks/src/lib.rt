// The checks of opening and adding: as the test does up to 7, with the lent buffers under the 9.
#![tactic(auto)]

ghost use Rattle.std.specs.Prelude.{◌≡◌, [], ◌∷◌};
ghost use Rattle.tariff.specs.Refusals.{first};
ghost use Rattle.tier_rules.specs.Checks.{running_checks};
ghost use Rattle.tier_rules.specs.Cells.{held_in};
ghost use Rattle.tier_running_rules.specs.AddAward.{add_award_on};
ghost use Rattle.tier_running_rules.specs.Inner.{counts_bad_of, state_short_of, short_if, up_to13};

use layouts::CONTRACT_CELLS;
use tariff::{MAX_CONSTRAINTS, MAX_CONTRACTS, Refusal};
use test_terms::Asked;
use tier_rules::{AWARDS_CELLS, FLOWS, NUMBERS};

// As many awards as a book has contracts.
const MAX_AWARDS: u64 = MAX_CONTRACTS as u64;

// 2, 3, 16 or 17.
fn counts_bad(asked: Asked) -> bool
    ensures { result ≡ counts_bad_of asked.nodes asked.constraints asked.process asked.period }
{
    let nodes_bad = tariff::nodes_bad(asked.nodes);
    let constraints_bad = MAX_CONSTRAINTS < asked.constraints;
    let process_bad = 2 < asked.process;
    let period_bad = 1 < asked.period;
    nodes_bad | (constraints_bad | (process_bad | period_bad))
}

// 9 for the three buffers, by their lengths. They stay apart, as C lends them to opening and adding.
pub fn state_short(awards: usize, numbers: usize, flows: usize) -> bool
    ensures { result ≡ state_short_of awards numbers flows }
{
    let awards_short = awards < AWARDS_CELLS;
    let numbers_short = numbers < NUMBERS;
    let flows_short = flows < FLOWS;
    awards_short | (numbers_short | flows_short)
}

// 2, 3, 16, 17, 9, 6, 7, where `short` says whether some buffer is too short. Limits and factors are no `GridTable` yet.
pub fn check_tables(
    asked: Asked,
    limits: &[u64],
    factors: &[i64],
    short: bool,
) -> Result<(), Refusal>
    ensures { result ≡ first (running_checks asked.nodes asked.constraints asked.process asked.period
        (limits.now) (factors.now) (short_if short ∷ [])) }
{
    if counts_bad(asked) {
        return test_terms::check_tables(asked, limits, factors);
    }
    if short {
        return Err(Refusal::ShortTable);
    }
    test_terms::check_tables(asked, limits, factors)
}

// The checks of an award before 21.
pub fn check_award(
    asked: Asked,
    limits: &[u64],
    factors: &[i64],
    award: &[u64],
    awards: &[u64],
    numbers: &[u64],
    flows: &[i64],
) -> Result<(), Refusal>
    ensures { result ≡ first (up_to13
        (add_award_on asked.nodes asked.constraints asked.process asked.period limits.now factors.now award.now awards.now numbers.now flows.now)
        (held_in numbers.now)) }
{
    let award_short = award.len() < CONTRACT_CELLS;
    let short = award_short | state_short(awards.len(), numbers.len(), flows.len());
    check_tables(asked, limits, factors, short)?;
    if MAX_AWARDS <= numbers[0] {
        return Err(Refusal::ContractCount);
    }
    book_rows::check_row(asked.nodes, award, 0)
}
