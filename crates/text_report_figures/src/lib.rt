// The verdict and the figures of the test's answer.
#![tactic(auto)]

ghost use Rattle.std.specs.Prelude.{cond, [], ◌+◌, ◌≤◌, ◌<◌};
ghost use Rattle.text_format.specs.Inner.{HasRoom, Puts};
ghost use Rattle.tariff.specs.Units.{max_constraints};
ghost use Rattle.text_report_rules.specs.Report.{numbers_to};
ghost use Rattle.text_report_rules.specs.Inner.{in_set, member, answer_figures, member_room, numbers_room, figures_room};

use test_rules::Verdict;
use text_format::Text;

// Constraint k, if it is in the set, in a list that begins at place `first`: a blank before it unless the list is empty.
fn put_member(text: &mut Text, first: usize, set: u64, k: usize)
    requires { (k < max_constraints) × HasRoom text.old member_room }
    ensures put { Puts text.old (cond (in_set set k) (member first text.old.at k) []) text.new }
    ensures upper_bound { text.new.at ≤ text.old.at + member_room }
{
    if (set >> k) % 2 != 1 {
        return;
    }
    if text.at != first {
        text.put_char(b' ');
    }
    text.put_decimal(k as u64);
}

// The set's constraints, from the lowest on, separated by blanks. `constraints ≤ max_constraints` stays a clause, here and below: a room for so many numbers is
// what it bounds.
fn put_numbers(text: &mut Text, constraints: usize, set: u64)
    requires { (constraints ≤ max_constraints) × HasRoom text.old numbers_room }
    ensures put { Puts text.old (numbers_to constraints (in_set set)) text.new }
    ensures upper_bound { text.new.at ≤ text.old.at + numbers_room }
{
    let first = text.at;
    for k in 0..constraints {
        put_member(text, first, set, k);
    }
}

// The verdict, and where the test fails how many constraints are overloaded, the lowest, the excess there, and all of them.
pub fn put_figures(text: &mut Text, constraints: usize, verdict: Verdict)
    requires { (constraints ≤ max_constraints) × HasRoom text.old figures_room }
    ensures put { Puts text.old (answer_figures constraints verdict) text.new }
    ensures upper_bound { text.new.at ≤ text.old.at + figures_room }
{
    match verdict {
        Verdict::Pass => text.put(b"pass,0,,,"),
        Verdict::Fail {
            set,
            count,
            lowest,
            excess,
        } => {
            text.put(b"fail,");
            text.put_decimal(count as u64);
            text.put_char(b',');
            text.put_decimal(lowest as u64);
            text.put_char(b',');
            text.put_signed(excess.0);
            text.put_char(b',');
            put_numbers(text, constraints, set);
        }
    }
}
