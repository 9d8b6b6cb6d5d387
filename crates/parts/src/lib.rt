// The inner functions under C names, for the programs that compare and time them beside the Rust: each gives what the function
// that it calls gives, as one number. An absent value is the least number of 64 bits; a share may be that too, so whether there is
// one has a function of its own.
#![tactic(auto)]

ghost use Rattle.std.specs.Prelude.{cond, ◌||◌, ◌≡◌, eqb, ltb, ◌+ℤ◌, unwrap_or};
ghost use Rattle.std.specs.Int.{w64};
ghost use Rattle.integer.specs.Clamp.{clamp};
ghost use Rattle.integer.specs.Sums.{ints, sum};
ghost use Rattle.money.specs.Scale.{priced_at, spent_of};
ghost use Rattle.money.specs.Shares.{share_of};
ghost use Rattle.floats.specs.Rounding.{whole_of};
ghost use Rattle.floats.specs.Figures.{or_nought, ratio_of, earned_of};
ghost use Rattle.dates.specs.Date.{from_ymd, ymd_of, weekday_of};
ghost use Rattle.computus.specs.Easter.{easter_of};
ghost use Rattle.holidays.specs.Holiday.{is_holiday};
ghost use Rattle.parts.specs.Numbers.{absent, presence, number_of, date_number, weekday_number};

use dates::YearMonthDay;
use dates::week::Weekday;

const NONE: i64 = i64::MIN;

#[unsafe(no_mangle)]
pub extern "C" fn parts_saturating_add(a: i64, b: i64) -> i64
    ensures { result ≡ clamp w64 (a +ℤ b) }
{
    money::sums::saturating_add(a, b)
}

#[unsafe(no_mangle)]
pub extern "C" fn parts_priced(units: i64, price: i64) -> i64
    ensures { result ≡ priced_at units price }
{
    money::scale::priced(units, price)
}

#[unsafe(no_mangle)]
pub extern "C" fn parts_spent(actual: i64, budget: i64) -> i64
    ensures { result ≡ unwrap_or (spent_of actual budget) absent }
{
    money::scale::spent(actual, budget).unwrap_or(NONE)
}

#[unsafe(no_mangle)]
pub extern "C" fn parts_has_spent(actual: i64, budget: i64) -> u64
    ensures { result ≡ presence (spent_of actual budget) }
{
    u64::from(money::scale::spent(actual, budget).is_some())
}

#[unsafe(no_mangle)]
pub extern "C" fn parts_share(amount: i64, n: u64, k: u64) -> i64
    ensures { result ≡ cond (eqb n 0) absent (share_of amount n k) }
{
    if n == 0 {
        return NONE;
    }
    money::shares::share(amount, n, k)
}

#[unsafe(no_mangle)]
pub extern "C" fn parts_cumulative(amount: i64, n: u64, k: u64) -> i64
    ensures { result ≡ cond (eqb n 0 || ltb n k) absent (sum ints (share_of amount n) k) }
{
    if n == 0 {
        return NONE;
    }
    if n < k {
        return NONE;
    }
    money::shares::cumulative(amount, n, k)
}

#[unsafe(no_mangle)]
pub extern "C" fn parts_whole(x: f64) -> i64
    ensures { result ≡ whole_of x }
{
    floats::whole(x)
}

#[unsafe(no_mangle)]
pub extern "C" fn parts_ratio(a: i64, b: i64) -> f64
    ensures { result ≡ or_nought (ratio_of a b) }
{
    floats::ratio(a, b).unwrap_or(0.0)
}

#[unsafe(no_mangle)]
pub extern "C" fn parts_earned(budget: i64, done: f64) -> i64
    ensures { result ≡ earned_of budget done }
{
    floats::earned(budget, done)
}

fn number(day: Option<i32>) -> i64
    ensures { result ≡ number_of day }
{
    match day {
        Some(days) => i64::from(days),
        None => NONE,
    }
}

// Month and day above the year.
fn date_number(date: Option<YearMonthDay>) -> i64
    ensures { result ≡ date_number date }
{
    match date {
        Some(x) => {
            let high = (u64::from(x.month) * 100 + u64::from(x.day)) * 1048576;
            high as i64 + i64::from(x.year)
        }
        None => NONE,
    }
}

fn weekday_number(weekday: Option<Weekday>) -> i64
    ensures { result ≡ weekday_number weekday }
{
    match weekday {
        Some(w) => w.index() as i64,
        None => NONE,
    }
}

#[unsafe(no_mangle)]
pub extern "C" fn parts_from_ymd(year: i32, month: u32, day: u32) -> i64
    ensures { result ≡ number_of (from_ymd year month day) }
{
    number(dates::from_ymd(year, month, day))
}

#[unsafe(no_mangle)]
pub extern "C" fn parts_ymd(days: i32) -> i64
    ensures { result ≡ date_number (ymd_of days) }
{
    date_number(dates::ymd(days))
}

#[unsafe(no_mangle)]
pub extern "C" fn parts_weekday(days: i32) -> i64
    ensures { result ≡ weekday_number (weekday_of days) }
{
    weekday_number(dates::weekday(days))
}

#[unsafe(no_mangle)]
pub extern "C" fn parts_easter(year: i32) -> i64
    ensures { result ≡ number_of (easter_of year) }
{
    number(computus::easter(year))
}

#[unsafe(no_mangle)]
pub extern "C" fn parts_is_holiday(days: i32) -> u64
    ensures { result ≡ cond (is_holiday days) 1 0 }
{
    u64::from(holidays::is_holiday(days))
}
