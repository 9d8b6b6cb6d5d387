// The 1,200 months of D's range, January 2000 to December 2099, by number from 0 on.
#![tactic(auto)]

ghost use Rattle.std.specs.Prelude.{◌≡◌, ◌+◌, ◌≤◌, ◌<◌};
ghost use Rattle.months.specs.Months.{month_number, first_day, january2000};
ghost use Rattle.months.specs.Table.{first_days};

use crate::century::FIRST_DAYS;

mod century;

// The first days of all months. To be made once in a call and lent: each use of the constant writes it anew.
pub fn first_days() -> [u16; 1200]
    ensures { result ≡ first_days }
{
    FIRST_DAYS
}

// The first day of a month.
pub fn first_day(days: &[u16; 1200], i: usize) -> u64
    requires { (days.now ≡ first_days) × (i < 1200) }
    ensures { result ≡ first_day (january2000 + i) }
{
    u64::from(days[i])
}

// Its last day.
pub fn last_day(days: &[u16; 1200], i: usize) -> u64
    requires { (days.now ≡ first_days) × (i < 1200) }
    ensures { result + 1 ≡ first_day (january2000 + i + 1) }
{
    if i == 1199 {
        return 47481;
    }
    first_day(days, i + 1) - 1
}

// The month of a date: a first guess by the mean length of a month, 487 / 16 days, and one step back by the table. The
// guess counts two days more than have passed, so that it is the month or the one after it.
pub fn month_at(days: &[u16; 1200], date: u64) -> usize
    requires { (days.now ≡ first_days) × ((10957 ≤ date) × (date ≤ 47481)) }
    ensures month { january2000 + result ≡ month_number date }
    ensures below { result < 1200 }
{
    let guess = ((date - 10955) * 16 / 487) as usize;
    if guess == 1200 {
        return 1199;
    }
    if date < first_day(days, guess) {
        return guess - 1;
    }
    guess
}
