// Dates and on-peak hours, for C: figures go into lent cells, and the answer is the refusal's number, 0 for none.
// C calls each operation by a name of its own and with raw parameters, so a body that only passes the answer on is written out for each.
#![tactic(auto)]

ghost use Rattle.dates.specs.Date.{date_for};
ghost use Rattle.dates.specs.Weekday.{TellsWeekdayForC};
ghost use Rattle.dates.specs.MonthLater.{ReachesMonthLaterForC};
ghost use Rattle.date_hours.specs.MonthHours.{TellsHoursForC};

use dates::Date;

// Gives a date's weekday, 1, Monday, to 7.
#[unsafe(no_mangle)]
pub extern "C" fn crr_weekday(year: u64, month: u64, day: u64, weekday: &mut u64) -> u64
    ensures { TellsWeekdayForC (date_for year month day) result weekday }
{
    let date = Date { year, month, day };
    tariff::answer_cell(date.weekday(), weekday)
}

// Gives the date one month later, the day cut to the month's last.
#[unsafe(no_mangle)]
pub extern "C" fn crr_month_later(
    year: u64,
    month: u64,
    day: u64,
    later_year: &mut u64,
    later_month: &mut u64,
    later_day: &mut u64,
) -> u64
    ensures { ReachesMonthLaterForC (date_for year month day) result later_year later_month later_day }
{
    let given = Date { year, month, day };
    match given.month_later() {
        Err(refusal) => refusal.number(),
        Ok(later) => {
            *later_year = later.year;
            *later_month = later.month;
            *later_day = later.day;
            0
        }
    }
}

// Gives a month's on-peak hours.
#[unsafe(no_mangle)]
pub extern "C" fn crr_month_hours(year: u64, month: u64, hours: &mut u64) -> u64
    ensures { TellsHoursForC year month result hours }
{
    tariff::answer_cell(date_hours::month_hours(year, month), hours)
}
