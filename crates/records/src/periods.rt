// What an activity did in a period.
ghost use Rattle.std.specs.Prelude.{◌≡◌};
ghost use Rattle.format.specs.Format as layout;
ghost use Rattle.records.specs.Decoded.{period_record_of};

use fields::kinds::{amount, index};
use format::Pos;

#[derive(Clone, Copy)]
pub struct PeriodRecord {
    pub period: u64,
    pub activity: u64,
    pub earned: i64,
    pub labor: i64,
    pub nonlabor: i64,
    pub material: i64,
    pub expense: i64,
    pub next: Pos,
}

// A record of a book with so many periods and activities.
#[inline(always)]
pub fn read_period_record(book: &[u8], at: Pos, periods: u64, activities: u64) -> PeriodRecord
    ensures { (period_record_of result, result.next) ≡ (layout.period_record periods activities).read book.now at }
{
    let period = index(book, at, periods);
    let activity = index(book, period.next, activities);
    let earned = amount(book, activity.next);
    let labor = amount(book, earned.next);
    let nonlabor = amount(book, labor.next);
    let material = amount(book, nonlabor.next);
    let expense = amount(book, material.next);
    PeriodRecord {
        period: period.value,
        activity: activity.value,
        earned: earned.value,
        labor: labor.value,
        nonlabor: nonlabor.value,
        material: material.value,
        expense: expense.value,
        next: expense.next,
    }
}
