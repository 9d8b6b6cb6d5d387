// Activities, and what names them: assignments, expenses, lines of the baseline.
ghost use Rattle.std.specs.Prelude.{◌≡◌};
ghost use Rattle.format.specs.Format as layout;
ghost use Rattle.records.specs.Decoded.{activity_of, assignment_of, expense_of, baseline_line_of};

use fields::kinds::{
    amount, date, field, index, minutes, optional_amount, optional_date, optional_index,
};
use format::{Accrual, Pos, Reason, Status};

// Early dates are `start` and `finish`, actual ones `started` and `finished`; `working` and `remaining` are minutes.
#[derive(Clone, Copy)]
pub struct Activity {
    pub parent: Option<u64>,
    pub calendar: Option<u64>,
    pub status: Status,
    pub start: u64,
    pub finish: u64,
    pub started: Option<u64>,
    pub finished: Option<u64>,
    pub working: u64,
    pub remaining: u64,
    pub percent: Option<i64>,
    pub next: Pos,
}

#[derive(Clone, Copy)]
pub struct Assignment {
    pub activity: u64,
    pub resource: Option<u64>,
    pub planned: i64,
    pub actual: i64,
    pub remaining: i64,
    pub next: Pos,
}

#[derive(Clone, Copy)]
pub struct Expense {
    pub activity: u64,
    pub accrual: Accrual,
    pub planned: i64,
    pub actual: i64,
    pub remaining: i64,
    pub next: Pos,
}

#[derive(Clone, Copy)]
pub struct BaselineLine {
    pub activity: u64,
    pub start: u64,
    pub finish: u64,
    pub minutes: u64,
    pub cost: i64,
    pub next: Pos,
}

// An activity of a book with so many calendars and activities.
#[inline(always)]
pub fn read_activity(book: &[u8], at: Pos, calendars: u64, activities: u64) -> Activity
    ensures { (activity_of result, result.next) ≡ (layout.activity calendars activities).read book.now at }
{
    let parent = optional_index(book, at, activities);
    let calendar = optional_index(book, parent.next, calendars);
    let status = field(book, calendar.next, 0, 3, Reason::OutOfRange);
    let start = date(book, status.next);
    let finish = date(book, start.next);
    let started = optional_date(book, finish.next);
    let finished = optional_date(book, started.next);
    let working = minutes(book, finished.next);
    let remaining = minutes(book, working.next);
    let percent = optional_amount(book, remaining.next);
    Activity {
        parent: parent.value,
        calendar: calendar.value,
        status: Status::from(status.value),
        start: start.value,
        finish: finish.value,
        started: started.value,
        finished: finished.value,
        working: working.value,
        remaining: remaining.value,
        percent: percent.value,
        next: percent.next,
    }
}

// An assignment of a book with so many activities and resources.
#[inline(always)]
pub fn read_assignment(book: &[u8], at: Pos, activities: u64, resources: u64) -> Assignment
    ensures { (assignment_of result, result.next) ≡ (layout.assignment activities resources).read book.now at }
{
    let activity = index(book, at, activities);
    let resource = optional_index(book, activity.next, resources);
    let planned = amount(book, resource.next);
    let actual = amount(book, planned.next);
    let remaining = amount(book, actual.next);
    Assignment {
        activity: activity.value,
        resource: resource.value,
        planned: planned.value,
        actual: actual.value,
        remaining: remaining.value,
        next: remaining.next,
    }
}

// An expense of a book with so many activities.
#[inline(always)]
pub fn read_expense(book: &[u8], at: Pos, activities: u64) -> Expense
    ensures { (expense_of result, result.next) ≡ (layout.expense activities).read book.now at }
{
    let activity = index(book, at, activities);
    let accrual = field(book, activity.next, 0, 3, Reason::OutOfRange);
    let planned = amount(book, accrual.next);
    let actual = amount(book, planned.next);
    let remaining = amount(book, actual.next);
    Expense {
        activity: activity.value,
        accrual: Accrual::from(accrual.value),
        planned: planned.value,
        actual: actual.value,
        remaining: remaining.value,
        next: remaining.next,
    }
}

// A line of the baseline of a book with so many activities.
#[inline(always)]
pub fn read_baseline_line(book: &[u8], at: Pos, activities: u64) -> BaselineLine
    ensures { (baseline_line_of result, result.next) ≡ (layout.baseline_line activities).read book.now at }
{
    let activity = index(book, at, activities);
    let start = date(book, activity.next);
    let finish = date(book, start.next);
    let minutes = minutes(book, finish.next);
    let cost = amount(book, minutes.next);
    BaselineLine {
        activity: activity.value,
        start: start.value,
        finish: finish.value,
        minutes: minutes.value,
        cost: cost.value,
        next: cost.next,
    }
}
