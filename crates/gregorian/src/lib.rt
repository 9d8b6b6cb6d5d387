// The Gregorian calendar on natural numbers: years from year -10000, days from 1 January of that year.
// The conversions are the civil-from-days arithmetic (Hinnant's): years that start on 1 March, in eras of 400.
#![tactic(auto)]

ghost use Rattle.std.specs.Prelude.{◌≡◌, true, suc, ◌+◌, ◌-◌, ◌*◌, ◌/◌, ◌≤◌, ◌<◌};
ghost use Rattle.gregorian.specs.Calendar.{is_leap, leap_day, month_length, day_number, is_date, civil};

pub mod count;

// A date, with its year counted from year -10000.
#[derive(Clone, Copy)]
pub struct Civil {
    pub year: u32,
    pub month: u32,
    pub day: u32,
}

pub fn is_leap(year: u32) -> bool
    ensures { result ≡ is_leap year }
{
    year % 4 == 0 && (year % 100 != 0 || year % 400 == 0)
}

pub fn month_length(year: u32, month: u32) -> u32
    requires { (1 ≤ month) × (month ≤ 12) }
    ensures { result ≡ month_length year month }
{
    match month {
        2 => { if is_leap(year) { 29 } else { 28 } }
        4 | 6 | 9 | 11 => 30,
        _ => 31,
    }
}

// There is such a day.
pub fn is_date(year: u32, month: u32, day: u32) -> bool
    ensures { result ≡ is_date year month day }
{
    (1..=12).contains(&month) && (1..=month_length(year, month)).contains(&day)
}

// The number of a day of the year that starts on 1 March of year y: mp counts its months from 0.
fn march(y: u32, mp: u32, day: u32) -> u32
    requires { (y < 20000) × ((mp < 12) × ((1 ≤ day) × (day ≤ 31))) }
    ensures { result ≡ day_number y 3 1 + (153 * mp + 2) / 5 + (day - 1) }
{
    let era = y / 400;
    let yoe = y % 400;
    let doy = (153 * mp + 2) / 5 + day - 1;
    let doe = yoe * 365 + yoe / 4 - yoe / 100 + doy;
    era * 146097 + doe + 60
}

// The number of a day.
pub fn number(year: u32, month: u32, day: u32) -> u32
    requires le_year { (1 ≤ year) × (year < 20000) }
    requires day_value { is_date year month day ≡ true }
    ensures { result ≡ day_number year month day }
{
    if month <= 2 {
        march(year - 1, month + 9, day)
    } else {
        march(year, month - 3, day)
    }
}

// The date of day doy, counted from 0, of the year that starts on 1 March of year y.
fn in_year(y: u32, doy: u32) -> Civil
    requires { (y < 40000) × (doy < 365 + leap_day (suc y)) }
    ensures { result ≡ civil (day_number y 3 1 + doy) }
{
    let mp = (5 * doy + 2) / 153;
    let day = doy - (153 * mp + 2) / 5 + 1;
    if mp < 10 {
        Civil {
            year: y,
            month: mp + 3,
            day,
        }
    } else {
        Civil {
            year: y + 1,
            month: mp - 9,
            day,
        }
    }
}

// The date of a day's number.
pub fn civil_of(n: u32) -> Civil
    requires { (60 ≤ n) × (n < 8000000) }
    ensures { result ≡ civil n }
{
    let z = n - 60;
    let era = z / 146097;
    let doe = z % 146097;
    let yoe = (doe - doe / 1460 + doe / 36524 - doe / 146096) / 365;
    in_year(era * 400 + yoe, doe - (yoe * 365 + yoe / 4 - yoe / 100))
}
