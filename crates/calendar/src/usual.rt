// What the week and the region say of dates.
ghost use Rattle.std.specs.Prelude.{◌≡◌, Bool, true, not, ◌&&◌, ℕ, ◌+◌, ◌-◌, ◌≤◌, ℤ, pos, length};
ghost use mathlib.Core.List.{foldl};
ghost use Rattle.dates.specs.Date.{is_day, weekday_of};
ghost use Rattle.holidays.specs.Holiday.{is_holiday};
ghost use Rattle.holidays.specs.Year.{holidays_in};
ghost use Rattle.model.specs.Calendar.{works_on};
ghost use Rattle.calendar.specs.Tables.{usual, Shows, freed};

use crate::marks::{bit, mark};
use format::Region;

// The weekday's bit of the week: bit 0 is Monday, and 1 January 1970 was a Thursday.
fn works_on_week(week: u64, date: u64) -> bool
    requires { date ≤ 47481 }
    ensures { result ≡ works_on week (weekday_of (pos date)) }
{
    let weekday = (date + 3) % 7;
    (week >> weekday) % 2 == 1
}

// The week, on each date between two.
fn fill_week(week: u64, from: u64, to: u64, days: &mut [u8])
    requires to_bound { to ≤ 47481 }
    requires from_in_bounds { to + 1 - from ≤ length days.old }
    ensures { Shows (λ date. works_on week (weekday_of (pos date))) from to days.new }
{
    for date in from..to + 1 {
        days[(date - from) as usize] = bit(works_on_week(week, date));
    }
}

// Sets a day as not worked, if the table has it.
fn free(day: Option<i32>, base: u64, days: &mut [u8])
    requires { (z : ℤ) → day ≡ Some z → is_day z ≡ true }
    ensures { days.new ≡ freed base days.old day }
{
    match day {
        Some(z) => {
            if 0 <= z {
                mark(days, base, z as u64, false);
            }
        }
        None => {}
    }
}

// Sets each holiday of a year as not worked.
fn free_year(year: i32, base: u64, days: &mut [u8])
    ensures { days.new ≡ foldl (freed base) days.old (holidays_in year) }
{
    let sunday = computus::easter(year);
    for k in 0..13 {
        let day = holidays::holiday_in(year, sunday, k);
        free(day, base, days);
    }
}

// Sets the holidays of the years of two dates and between as not worked: from 1970 to 2099 any four years have 1,461 days.
fn free_holidays(from: u64, to: u64, days: &mut [u8])
    requires to_bound { to ≤ 47481 }
    requires from_in_bounds { to + 1 - from ≤ length days.old }
    ensures { (p : ℕ → Bool) → Shows p from to days.old → Shows (λ date. not (is_holiday (pos date)) && p date) from to days.new }
{
    if to < from {
        return;
    }
    let last = (4 * to + 2) / 1461;
    for n in (4 * from + 2) / 1461..last + 1 {
        free_year((n + 1970) as i32, from, days);
    }
}

// The week and the region, on each date between two.
pub fn fill_usual(week: u64, region: Region, from: u64, to: u64, days: &mut [u8])
    requires to_bound { to ≤ 47481 }
    requires from_in_bounds { to + 1 - from ≤ length days.old }
    ensures { Shows (usual week region) from to days.new }
{
    fill_week(week, from, to, days);
    match region {
        Region::None => {}
        Region::Brazil => free_holidays(from, to, days),
    }
}
