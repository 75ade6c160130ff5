// A month's on-peak hours (document 02, paper 1), from the table.
#![tactic(auto)]

ghost use Rattle.date_hours.specs.MonthHours.{TellsHours};

use dates::FIRST_YEAR;
use tariff::Refusal;

// A month's on-peak hours. Check: 19.
pub fn month_hours(year: u64, month: u64) -> Result<u64, Refusal>
    ensures { TellsHours year month result }
{
    if !dates::month_exists(year, month) {
        return Err(Refusal::NoSuchDate);
    }
    let k = (year - FIRST_YEAR) * 12 + (month - 1);
    Ok(date_table::cell(k as usize))
}
