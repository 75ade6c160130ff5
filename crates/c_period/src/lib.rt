// An hour's period, for C: the figure goes into a lent cell, and the answer is the refusal's number, 0 for none.
// C calls each operation by a name of its own and with raw parameters, so a body that only passes the answer on is written out for each.
#![tactic(auto)]

ghost use Rattle.dates.specs.Date.{date_for};
ghost use Rattle.date_period.specs.HourPeriod.{TellsPeriodForC};

use dates::Date;

// Gives the period of a date's hour, 0 off-peak or 1 on-peak.
#[unsafe(no_mangle)]
pub extern "C" fn crr_hour_period(
    year: u64,
    month: u64,
    day: u64,
    hour_ending: u64,
    period: &mut u64,
) -> u64
    ensures { TellsPeriodForC (date_for year month day) hour_ending result period }
{
    let date = Date { year, month, day };
    match date_period::hour_period(date, hour_ending) {
        Err(refusal) => refusal.number(),
        Ok(found) => {
            *period = found as u64;
            0
        }
    }
}
