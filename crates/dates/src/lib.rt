// Dates of January 2010 to December 2037 (document 02, paper 1): month lengths, weekdays, the date one month later.
#![tactic(auto)]

ghost use Rattle.std.specs.Prelude.{◌≡◌, ◌≤◌};
ghost use Rattle.date_rules.specs.Dates.{leap, month_length_of, length_before_of, month_days_of, day_number_of, weekday_of, last_year, month_exists_of, date_exists};
ghost use Rattle.dates.specs.Weekday.{TellsWeekday};
ghost use Rattle.dates.specs.MonthLater.{ReachesMonthLater};

use tariff::Refusal;

pub const FIRST_YEAR: u64 = 2010;

pub const LAST_YEAR: u64 = 2037;

// Any numbers: whether there is such a date is asked of each date that is given.
#[derive(Clone, Copy)]
pub struct Date {
    pub year: u64,
    pub month: u64,
    pub day: u64,
}

// A month that the calendar reaches, so that a day's number is not too large.
#[derive(Clone, Copy)]
pub struct Month {
    pub year: u64,
    pub month: u64,
    pub ghost reached: { (1 ≤ year) × (year ≤ last_year) × (month ≤ 12) },
}

fn leap_year(year: u64) -> bool
    ensures { result ≡ leap year }
{
    year % 400 == 0 || year % 100 != 0 && year % 4 == 0
}

// The days of each month of a common year, from month 1; there is no month 0.
const DAYS: [u16; 13] = [0, 31, 28, 31, 30, 31, 30, 31, 31, 30, 31, 30, 31];

fn month_length(leap: bool, month: usize) -> u64
    requires { month ≤ 12 }
    ensures { (result ≡ month_length_of leap month) × (result ≤ 31) }
{
    if month != 2 {
        return u64::from(DAYS[month]);
    }
    if leap { 29 } else { 28 }
}

// The days before each month of a common year.
const DAYS_BEFORE: [u16; 13] = [0, 0, 31, 59, 90, 120, 151, 181, 212, 243, 273, 304, 334];

fn length_before(leap: bool, month: usize) -> u64
    requires { month ≤ 12 }
    ensures { (result ≡ length_before_of leap month) × (result ≤ 335) }
{
    let before = u64::from(DAYS_BEFORE[month]);
    if month <= 2 {
        return before;
    }
    if leap { before + 1 } else { before }
}

// Year and month are numbers here and below: `exists` asks before there is a `Month`, and `month_later` asks of January 2038.
pub fn month_days(year: u64, month: u64) -> u64
    requires { month ≤ 12 }
    ensures { (result ≡ month_days_of year month) × (result ≤ 31) }
{
    month_length(leap_year(year), month as usize)
}

impl Month {
    fn day_number(self, day: u64) -> u64
        requires { day ≤ 31 }
        ensures { (result ≡ day_number_of self.year self.month day) × (day ≤ result) }
    {
        let p = self.year - 1;
        let before = length_before(leap_year(self.year), self.month as usize);
        365 * p + p / 4 - p / 100 + p / 400 + before + day
    }

    // 1, Monday, to 7: `weekday_of` has a number, and C is given it.
    pub fn weekday(self, day: u64) -> u64
        requires { (1 ≤ day) × (day ≤ 31) }
        ensures { result ≡ weekday_of self.year self.month day }
    {
        (self.day_number(day) - 1) % 7 + 1
    }
}

pub fn month_exists(year: u64, month: u64) -> bool
    ensures { result ≡ month_exists_of year month }
{
    (FIRST_YEAR..=LAST_YEAR).contains(&year) && (1..=12).contains(&month)
}

impl Date {
    pub fn exists(self) -> bool
        ensures { result ≡ date_exists self.year self.month self.day }
    {
        month_exists(self.year, self.month)
            && (1..=month_days(self.year, self.month)).contains(&self.day)
    }

    // 1, Monday, to 7. Check: 19.
    pub fn weekday(self) -> Result<u64, Refusal>
        ensures { TellsWeekday self result }
    {
        if !self.exists() {
            return Err(Refusal::NoSuchDate);
        }
        // Here and in date_period a `Month` is made where the date is known to exist: a method would ask that again.
        let month = Month {
            year: self.year,
            month: self.month,
        };
        Ok(month.weekday(self.day))
    }

    // The date one month later, the day cut to the month's last. Checks: 19 of the date given, 19 of the date reached.
    pub fn month_later(self) -> Result<Date, Refusal>
        ensures { ReachesMonthLater self result }
    {
        if !self.exists() {
            return Err(Refusal::NoSuchDate);
        }
        let year = self.year + self.month / 12;
        let month = self.month % 12 + 1;
        let day = self.day.min(month_days(year, month));
        let reached = Date { year, month, day };
        if !reached.exists() {
            return Err(Refusal::NoSuchDate);
        }
        Ok(reached)
    }
}
