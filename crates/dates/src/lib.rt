// Civil dates of the proleptic Gregorian calendar, as a count of days from 1 January 1970, for years -9999 to 9999.
#![tactic(auto)]

ghost use Rattle.std.specs.Prelude.{◌≡◌, true};
ghost use Rattle.dates.specs.Date.{is_year, day_count, is_day, from_ymd, from_days, ymd_of, weekday_of};

pub mod week;

// A date, month and day from 1.
#[derive(Clone, Copy, PartialEq, Eq, Debug)]
pub struct YearMonthDay {
    pub year: i32,
    pub month: u32,
    pub day: u32,
}

// A year that a date may be in.
pub fn is_year(year: i32) -> bool
    ensures { result ≡ is_year year }
{
    (-9999..=9999).contains(&year)
}

// A day of such a year.
fn is_day(days: i32) -> bool
    ensures { result ≡ is_day days }
{
    (-4371587..=2932896).contains(&days)
}

// A day's number from 1 January of year -10000.
fn count_day(days: i32) -> u32
    requires { is_day days ≡ true }
    ensures { result ≡ day_count days }
{
    gregorian::count::counted_from(4371953, days)
}

// The day of a year, a month (1 to 12) and a day of it, counted from 1 January 1970 (negative before it); `None` where there is no such day.
pub fn from_ymd(year: i32, month: u32, day: u32) -> Option<i32>
    ensures { result ≡ from_ymd year month day }
{
    if !is_year(year) {
        return None;
    }
    let y = gregorian::count::counted_from(10000, year);
    if !gregorian::is_date(y, month, day) {
        return None;
    }
    let n = gregorian::number(y, month, day);
    Some(gregorian::count::signed_from(4371953, n))
}

// The day `days` from 1 January 1970, if its year is in range.
pub fn from_days(days: i32) -> Option<i32>
    ensures { result ≡ from_days days }
{
    is_day(days).then_some(days)
}

// Year, month and day.
pub fn ymd(days: i32) -> Option<YearMonthDay>
    ensures { result ≡ ymd_of days }
{
    if !is_day(days) {
        return None;
    }
    let x = gregorian::civil_of(count_day(days));
    Some(YearMonthDay {
        year: gregorian::count::signed_from(10000, x.year),
        month: x.month,
        day: x.day,
    })
}

// The day of the week.
pub fn weekday(days: i32) -> Option<week::Weekday>
    ensures { result ≡ weekday_of days }
{
    if !is_day(days) {
        return None;
    }
    // 1 January of year -10000 was a Saturday, 5.
    Some(week::at((count_day(days) + 5) % 7))
}
