// An hour's period, by the on-peak rule of document 02, paper 1. Beyond the papers, which ask for a month's hours alone.
#![tactic(auto)]

ghost use Rattle.std.specs.Prelude.{◌≡◌, true};
ghost use Rattle.date_rules.specs.Dates.{date_exists};
ghost use Rattle.date_period.specs.HourPeriod.{within, period_number, period_is, TellsPeriod};

use dates::{Date, Month};
use tariff::{Period, Refusal};

fn is_within(first: u64, last: u64, hour: u64) -> bool
    ensures { result ≡ within first last hour }
{
    (first..=last).contains(&hour)
}

fn period_at(date: Date, hour: u64) -> Period
    requires { date_exists date.year date.month date.day ≡ true }
    ensures { period_number result ≡ period_is date hour }
{
    let month = Month {
        year: date.year,
        month: date.month,
    };
    if is_within(7, 22, hour) && date_on_peak::on_peak_day(month, date.day) {
        Period::OnPeak
    } else {
        Period::OffPeak
    }
}

// The period of a date's hour. Checks: 19 of the date, 19 of the hour.
pub fn hour_period(date: Date, hour_ending: u64) -> Result<Period, Refusal>
    ensures { TellsPeriod date hour_ending result }
{
    if !date.exists() {
        return Err(Refusal::NoSuchDate);
    }
    if !is_within(1, 25, hour_ending) {
        return Err(Refusal::NoSuchDate);
    }
    Ok(period_at(date, hour_ending))
}
