// The schedule: the activities in one flat table, thirteen numbers of each.
ghost use Rattle.std.specs.Prelude.{◌≡◌, ◌+◌, ◌*◌, ◌≤◌, ◌<◌, length};
ghost use mathlib.Core.List.{map, flat_map};
ghost use Rattle.format.specs.Book.{Book};
ghost use Rattle.format.specs.Enumeration.{status_of, status_number};
ghost use Rattle.format.specs.Format as layout;
ghost use Rattle.format.specs.Verdict.{content};
ghost use Rattle.records.specs.Decoded.{activity_of};
ghost use Rattle.sections.specs.Sections.{alike_in};
ghost use Rattle.model.specs.Lookup.{activity_at};
ghost use Rattle.book.specs.Plan.{IsPlanOf};
ghost use Rattle.model.specs.Tree.{parents};
ghost use Rattle.tree.specs.Figures.{MarksLeaves};
ghost use Rattle.spans.specs.Columns.{parent_number};
ghost use Rattle.activities.specs.Schedule.{percent_given, percent_bits, percent_of, schedule_row, schedule_of, entry_at, first_in, last_in};

use crate::ways::way_number;
use book::layout::Plan;
use format::Status;
use model::Way;
use money::words::{from_bits, to_bits};
use records::activities::{Activity, read_activity};
use rows::put_row;
use sections::Section;
use sections::budgets::mark_of;
use sections::elements::{Element, skip_all};
use spans::bounds::{actual_from, actual_to, remaining_since};
use spans::number_or;

// The numbers of an activity, and the places among them; the dates are first and last, Planned, Actual and Remaining.
pub const SCHEDULE_WIDTH: usize = 13;

pub const PARENT: usize = 0;

pub const CALENDAR: usize = 1;

pub const DATES: usize = 2;

pub const STATUS: usize = 8;

pub const WORKING: usize = 9;

pub const REMAINING: usize = 10;

pub const GIVEN: usize = 11;

pub const PERCENT: usize = 12;

// Up to so many activities the tables of a call are small ones, which take less to clear.
pub const FEW: usize = 32;

// 1 where there is a percentage.
fn given(percent: Option<i64>) -> u64
    ensures { result ≡ percent_given percent }
{
    match percent {
        None => 0,
        Some(_) => 1,
    }
}

// Its bits, 0 where there is none.
fn percent_bits(percent: Option<i64>) -> u64
    ensures { result ≡ percent_bits percent }
{
    match percent {
        None => 0,
        Some(p) => to_bits(p),
    }
}

// The numbers of an activity, under a data date.
fn row_of(date: Option<u64>, activity: Activity) -> [u64; SCHEDULE_WIDTH]
    ensures { result ≡ schedule_row date (activity_of activity) }
{
    let from = actual_from(activity);
    [
        mark_of(activity.parent) as u64,
        number_or(activity.calendar, 0),
        activity.start,
        activity.finish,
        from,
        actual_to(activity.finished, date, from),
        remaining_since(activity.status, date, activity.start, activity.finish),
        activity.finish,
        activity.status as u64,
        activity.working,
        activity.remaining,
        given(activity.percent),
        percent_bits(activity.percent),
    ]
}

// One row after the other, in a book with so many calendars and this data date.
fn fill_rows(book: &[u8], list: Section, calendars: u64, date: Option<u64>, out: &mut [u64])
    requires { length out.old ≡ list.count * 13 }
    ensures { out.new ≡ flat_map (schedule_row date) (alike_in (layout.activity calendars list.count) book.now list) }
{
    let mut next = list.first;
    for i in 0..list.count {
        let activity = read_activity(book, next, calendars, list.count);
        put_row(&row_of(date, activity), i as usize * SCHEDULE_WIDTH, out);
        next = activity.next;
    }
}

// The schedule of an accepted book.
pub fn fill_schedule(book: &[u8], data_date: Option<u64>, plan: Plan, out: &mut [u64])
    requires plan_of { IsPlanOf book.now data_date plan }
    requires out_len { length out.old ≡ plan.activities.count * 13 }
    ensures { out.new ≡ schedule_of (content book.now) }
{
    fill_rows(book, plan.activities, plan.calendars.count, data_date, out);
}

// The row of one activity alone.
pub fn row_at(book: &[u8], data_date: Option<u64>, plan: Plan, i: u64) -> [u64; SCHEDULE_WIDTH]
    requires plan_of { IsPlanOf book.now data_date plan }
    requires i_lt_count { i < plan.activities.count }
    ensures { result ≡ schedule_row (content book.now).data_date (activity_at (content book.now) i) }
{
    let calendars = plan.calendars.count;
    let activities = plan.activities.count;
    let element = Element::Activity {
        calendars,
        activities,
    };
    let at = skip_all(book, plan.activities.first, element, i);
    row_of(data_date, read_activity(book, at, calendars, activities))
}

// Number k of activity i.
pub fn entry(schedule: &[u64], i: usize, k: usize) -> u64
    requires { i * 13 + k < length schedule.now }
    ensures { result ≡ entry_at schedule.now i k }
{
    schedule[i * SCHEDULE_WIDTH + k]
}

// The first date of its days; 0 where it has none.
pub fn first_at(schedule: &[u64], i: usize, way: Way) -> u64
    requires { i * 13 + 12 < length schedule.now }
    ensures { result ≡ first_in schedule.now way i }
{
    entry(schedule, i, DATES + way_number(way) * 2)
}

// The last date of its span.
pub fn last_at(schedule: &[u64], i: usize, way: Way) -> u64
    requires { i * 13 + 12 < length schedule.now }
    ensures { result ≡ last_in schedule.now way i }
{
    entry(schedule, i, DATES + way_number(way) * 2 + 1)
}

pub fn status_at(schedule: &[u64], i: usize) -> Status
    requires { i * 13 + 12 < length schedule.now }
    ensures { result ≡ status_of (entry_at schedule.now i 8) }
{
    Status::from(entry(schedule, i, STATUS))
}

pub fn percent_at(schedule: &[u64], i: usize) -> Option<i64>
    requires { i * 13 + 12 < length schedule.now }
    ensures { result ≡ percent_of (entry_at schedule.now i 11) (entry_at schedule.now i 12) }
{
    if entry(schedule, i, GIVEN) == 0 {
        return None;
    }
    Some(from_bits(entry(schedule, i, PERCENT)))
}

// The parents: an index, or 500 for none.
pub fn copy_parents(schedule: &[u64], out: &mut [u64])
    requires { length schedule.now ≡ length out.old * 13 }
    ensures { (book : Book) → schedule.now ≡ schedule_of book → out.new ≡ map parent_number book.activities }
{
    for i in 0..out.len() {
        out[i] = schedule[i * SCHEDULE_WIDTH + PARENT];
    }
}

// The leaf marks, from the parents: 1 for a parent, 0 for a leaf.
pub fn parent_marks(schedule: &[u64]) -> [u64; 500]
    requires { length schedule.now ≤ 6500 }
    ensures { (book : Book) → schedule.now ≡ schedule_of book → MarksLeaves result (parents book) }
{
    let n = schedule.len() / SCHEDULE_WIDTH;
    let mut marks = [0u64; 500];
    for i in 0..n {
        let parent = schedule[i * SCHEDULE_WIDTH + PARENT];
        if parent < 500 {
            marks[parent as usize] = 1;
        }
    }
    marks
}
