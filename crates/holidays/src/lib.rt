// Brazil's national holidays: fixed dates from the laws that set them, movable ones by their distance from Easter.
#![tactic(auto)]

ghost use Rattle.std.specs.Prelude.{◌≡◌, true, ◌<◌, get_or, ℤ, pos};
ghost use Rattle.dates.specs.Date.{is_day};
ghost use Rattle.computus.specs.Easter.{easter_of};
ghost use Rattle.holidays.specs.Holiday.{distances, is_fixed, is_awareness, is_movable, by_easter, is_holiday};
ghost use Rattle.holidays.specs.Year.{moved, awareness_in, holidays_in};

// A month and a day of it.
#[derive(Clone, Copy, PartialEq, Eq, Debug)]
pub struct MonthDay {
    pub month: u32,
    pub day: u32,
}

// 1 January, 21 April, 1 May, 7 September, 12 October, 2 November, 15 November, 25 December.
const FIXED: [MonthDay; 8] = [
    MonthDay { month: 1, day: 1 },
    MonthDay { month: 4, day: 21 },
    MonthDay { month: 5, day: 1 },
    MonthDay { month: 9, day: 7 },
    MonthDay { month: 10, day: 12 },
    MonthDay { month: 11, day: 2 },
    MonthDay { month: 11, day: 15 },
    MonthDay { month: 12, day: 25 },
];

// Carnival Monday and Tuesday, Good Friday, Corpus Christi, in days after Easter Sunday.
const MOVABLE: [i32; 4] = [-48, -47, -2, 60];

fn is_fixed(month: u32, day: u32) -> bool
    ensures { result ≡ is_fixed month day }
{
    FIXED.iter().any(|p| p.month == month && p.day == day)
}

// 20 November, from 2024 on.
fn is_awareness(year: i32, month: u32, day: u32) -> bool
    ensures { result ≡ is_awareness year month day }
{
    2024 <= year && (month == 11 && day == 20)
}

// A day's distance from Easter Sunday is that of a movable holiday.
fn is_movable(distance: i32) -> bool
    ensures { result ≡ is_movable distance }
{
    MOVABLE.contains(&distance)
}

fn is_by_easter(year: i32, days: i32) -> bool
    requires { is_day days ≡ true }
    ensures { result ≡ by_easter (easter_of year) days }
{
    match computus::easter(year) {
        Some(sunday) => is_movable(days - sunday),
        None => false,
    }
}

// The day, counted from 1 January 1970, is a national holiday; no day outside the years -9999 to 9999 is.
pub fn is_holiday(days: i32) -> bool
    ensures { result ≡ is_holiday days }
{
    match dates::ymd(days) {
        Some(date) => {
            is_fixed(date.month, date.day)
                || (is_awareness(date.year, date.month, date.day) || is_by_easter(date.year, days))
        }
        None => false,
    }
}

// A movable holiday, from Easter Sunday.
fn moved_from(sunday: Option<i32>, k: usize) -> Option<i32>
    requires { (k < 4) × ((e : ℤ) → sunday ≡ Some e → is_day e ≡ true) }
    ensures { result ≡ moved sunday (get_or distances k (pos 0)) }
{
    Some(sunday? + MOVABLE[k])
}

// The 20 November of a year, from 2024 on.
fn awareness_in(year: i32) -> Option<i32>
    ensures { result ≡ awareness_in year }
{
    if 2024 <= year {
        return dates::from_ymd(year, 11, 20);
    }
    None
}

// The holidays of a year by number, from 0 to 12: the fixed ones, 20 November, the movable ones.
pub fn holiday_in(year: i32, sunday: Option<i32>, k: usize) -> Option<i32>
    requires { (sunday ≡ easter_of year) × (k < 13) }
    ensures { result ≡ get_or (holidays_in year) k None }
{
    if k < 8 {
        let p = FIXED[k];
        return dates::from_ymd(year, p.month, p.day);
    }
    if k == 8 {
        return awareness_in(year);
    }
    moved_from(sunday, k - 9)
}
