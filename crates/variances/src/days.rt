// The rows of the lines with working days instead of dates: calendar by calendar, its working dates over a stretch counted once.
ghost use Rattle.std.specs.Prelude.{ℕ, ◌+◌, ◌*◌, ◌/◌, ◌≤◌, ◌<◌, ◌≡◌, true, false, length};
ghost use Rattle.format.specs.InRange.{Every, CalendarInRange};
ghost use Rattle.format.specs.Format as layout;
ghost use Rattle.money.specs.Words.{bits};
ghost use Rattle.sections.specs.Sections.{alike_in, calendar_of};
ghost use Rattle.model.specs.Variances.{working_between};
ghost use Rattle.variances.specs.Changed.{row_of, RowChanged};
ghost use Rattle.activities.specs.Schedule.{entry_at};
ghost use Rattle.variances.specs.Days.{has_line, is_under, dated_under, dated_by, Tables, all_rows, Reaches, Bounded, HasCount, Counted, counted_between, Room};

use activities::schedule::{CALENDAR, SCHEDULE_WIDTH};
use baseline::lines::{FINISH, LINE_WIDTH, START};
use calendar::counts::fill_counts;
use money::words::to_bits;
use sections::Section;
use sections::calendars::{Calendar, read_calendar};
use spans::Stretch;

// The places of an activity's early dates in the schedule.
pub const EARLY_START: usize = 2;

pub const EARLY_FINISH: usize = 3;

// The working dates from one up to another, by running counts, in two's complement: below zero where the other is earlier.
fn between(counts: &[u64], base: u64, from: u64, to: u64) -> u64
    requires has_count { HasCount base counts.now from }
    requires has_count_2 { HasCount base counts.now to }
    ensures { result ≡ bits (counted_between base counts.now from to) }
{
    let before = counts[(from - base) as usize];
    let through = counts[(to - base) as usize];
    to_bits((through as i64) - (before as i64))
}

// Activity i has a line, and its calendar is the one of this number.
fn is_under(i: usize, number: u64, schedule: &[u64], out: &[u64]) -> bool
    requires { (i * 13 + 13 ≤ length schedule.now) × (i * 5 + 5 ≤ length out.now) }
    ensures { result ≡ is_under schedule.now number i (row_of 5 out.now i) }
{
    if out[i * LINE_WIDTH] == 0 {
        return false;
    }
    schedule[i * SCHEDULE_WIDTH + CALENDAR] == number
}

// Of one activity, where its calendar is the one that is counted.
fn count_row(
    i: usize,
    number: u64,
    reach: Stretch,
    schedule: &[u64],
    counts: &[u64],
    out: &mut [u64],
)
    requires i_in_bounds { (i * 13 + 13 ≤ length schedule.now) × (i * 5 + 5 ≤ length out.old) }
    requires reaches { is_under schedule.now number i (row_of 5 out.old i) ≡ true → Reaches reach schedule.now i (row_of 5 out.old i) }
    requires counted { Counted reach counts.now }
    ensures { RowChanged 5 i (dated_under (counted_between reach.from counts.now) schedule.now number i) out.old out.new }
{
    if is_under(i, number, schedule, out) {
        let at = i * LINE_WIDTH;
        let k = i * SCHEDULE_WIDTH;
        let start = between(
            counts,
            reach.from,
            schedule[k + EARLY_START],
            out[at + START],
        );
        let finish = between(
            counts,
            reach.from,
            schedule[k + EARLY_FINISH],
            out[at + FINISH],
        );
        out[at + START] = start;
        out[at + FINISH] = finish;
    }
}

// Of all activities.
fn count_rows(number: u64, reach: Stretch, schedule: &[u64], counts: &[u64], out: &mut [u64])
    requires tables { Tables schedule.now out.old }
    requires by_index { (i : ℕ) → i < length out.old / 5 → is_under schedule.now number i (row_of 5 out.old i) ≡ true → Reaches reach schedule.now i (row_of 5 out.old i) }
    requires counted { Counted reach counts.now }
    ensures { out.new ≡ all_rows (dated_under (counted_between reach.from counts.now) schedule.now number) out.old }
{
    let n = out.len() / 5;
    for i in 0..n {
        count_row(i, number, reach, schedule, counts, out);
    }
}

// Whether any activity with a line has the calendar.
fn is_used(number: u64, schedule: &[u64], out: &[u64]) -> bool
    requires { Tables schedule.now out.now }
    ensures { result ≡ false → (i : ℕ) → i < length out.now / 5 → is_under schedule.now number i (row_of 5 out.now i) ≡ false }
{
    let n = out.len() / 5;
    for i in 0..n {
        if is_under(i, number, schedule, out) {
            return true;
        }
    }
    false
}

// Of the activities of one calendar; where none with a line has it, its working dates are not counted.
fn count_calendar(
    book: &[u8],
    calendar: Calendar,
    number: u64,
    reach: Stretch,
    schedule: &[u64],
    days: &mut [u8],
    counts: &mut [u64],
    out: &mut [u64],
)
    requires calendar_in_range { CalendarInRange (calendar_of book.now calendar) }
    requires tables { Tables schedule.now out.old }
    requires by_index { (i : ℕ) → i < length out.old / 5 → is_under schedule.now number i (row_of 5 out.old i) ≡ true → Reaches reach schedule.now i (row_of 5 out.old i) }
    requires bounded { Bounded reach × Room reach days.old counts.old }
    ensures { out.new ≡ all_rows (dated_under (working_between (calendar_of book.now calendar)) schedule.now number) out.old }
{
    if is_used(number, schedule, out) {
        fill_counts(book, calendar, reach.from, reach.to, days, counts);
        count_rows(number, reach, schedule, counts, out);
    }
}

// Of the activities of all calendars, with tables for the stretch.
pub fn count_calendars(
    book: &[u8],
    list: Section,
    reach: Stretch,
    schedule: &[u64],
    days: &mut [u8],
    counts: &mut [u64],
    out: &mut [u64],
)
    requires every { Every CalendarInRange (alike_in layout.calendar book.now list) }
    requires tables { Tables schedule.now out.old }
    requires by_index { (i : ℕ) → i < length out.old / 5 → entry_at schedule.now i 1 < list.count }
    requires by_index_2 { (i : ℕ) → i < length out.old / 5 → has_line (row_of 5 out.old i) ≡ true → Reaches reach schedule.now i (row_of 5 out.old i) }
    requires bounded { Bounded reach × Room reach days.old counts.old }
    ensures { out.new ≡ all_rows (dated_by (alike_in layout.calendar book.now list) schedule.now) out.old }
{
    let count = list.count;
    let mut next = list.first;
    for k in 0..count {
        let calendar = read_calendar(book, next);
        next = calendar.next;
        count_calendar(book, calendar, k, reach, schedule, days, counts, out);
    }
}
