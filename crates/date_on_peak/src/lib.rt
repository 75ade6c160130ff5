// The on-peak rule (document 02, paper 1), day by day.
#![tactic(auto)]

ghost use Rattle.std.specs.Prelude.{◌≡◌, true, ◌*◌, ◌≤◌};
ghost use Rattle.date_rules.specs.Dates.{month_exists_of};
ghost use Rattle.date_rules.specs.OnPeak.{hoursADay, on_peak_hours};
ghost use Rattle.date_rules.specs.Inner.{between, holiday_by_days, on_peak_by_days_of};

use dates::{Month, month_days};

// Hours ending 7 to 22.
const HOURS_A_DAY: u64 = 16;

// A weekday from one day of its month to another.
fn is_between(weekday: u64, from: u64, to: u64, month: Month, day: u64) -> bool
    requires { (1 ≤ from) × (to ≤ 31) }
    ensures { result ≡ between weekday from to month.year month.month day }
{
    (from..=to).contains(&day) && month.weekday(day) == weekday
}

// By the days of the month between which each holiday falls (date_laws/proofs/ByDays.antt: these are the first, the fourth and the last).
fn is_holiday(month: Month, day: u64) -> bool
    ensures { result ≡ holiday_by_days month.year month.month day }
{
    match month.month {
        1 => day == 1,
        5 => is_between(1, 25, 31, month, day),
        7 => day == 4,
        9 => is_between(1, 1, 7, month, day),
        11 => is_between(4, 22, 28, month, day),
        12 => day == 25,
        _ => false,
    }
}

pub fn on_peak_day(month: Month, day: u64) -> bool
    requires { (1 ≤ day) × (day ≤ 31) }
    ensures { result ≡ on_peak_by_days_of month.year month.month day }
{
    let weekday = month.weekday(day);
    if weekday == 7 {
        return false;
    }
    if is_holiday(month, day) {
        return false;
    }
    weekday != 1 || !is_holiday(month, day - 1)
}

// A month's on-peak hours by the rule. The table is not read. By numbers: `month_exists_of` asks more than a `Month` has.
pub fn hours_by_rule(year: u64, month: u64) -> u64
    requires { month_exists_of year month ≡ true }
    ensures { (result ≡ on_peak_hours year month) × (result ≤ hoursADay * 31) }
{
    let given = Month { year, month };
    let mut count = 0;
    // From 0, as `on_peak_hours` counts the days: day + 1 is the date's.
    for day in 0..month_days(year, month) {
        if on_peak_day(given, day + 1) {
            count += 1;
        }
    }
    HOURS_A_DAY * count
}
