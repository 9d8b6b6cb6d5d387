// The table of a calendar's days: 1 where the date works, 0 where not.
ghost use Rattle.std.specs.Prelude.{◌≡◌, ℕ, ◌+◌, ◌-◌, ◌≤◌, length};
ghost use Rattle.format.specs.InRange.{CalendarInRange};
ghost use Rattle.format.specs.Book as content;
ghost use Rattle.format.specs.Format as layout;
ghost use Rattle.sections.specs.Sections.{elements, calendar_of};
ghost use Rattle.model.specs.Calendar.{is_working};
ghost use Rattle.calendar.specs.Tables.{Shows, overlaid};

use crate::marks::mark;
use crate::usual::fill_usual;
use fields::kinds::rising;
use records::calendars::read_exception;
use sections::Section;
use sections::calendars::Calendar;

// Sets each date of a list of days.
fn overlay_days(book: &[u8], list: Section, works: bool, base: u64, days: &mut [u8])
    ensures { days.new ≡ overlaid base (λ (day : ℕ). day) (λ day. works) (elements layout.rising (λ before day. day) 0 book.now list) days.old }
{
    let mut next = list.first;
    let mut before = 0;
    for _ in 0..list.count {
        let d = rising(book, next, before);
        mark(days, base, d.value, works);
        before = d.value;
        next = d.next;
    }
}

// Sets the date of each exception as it says.
fn overlay_exceptions(book: &[u8], list: Section, base: u64, days: &mut [u8])
    ensures { days.new ≡ overlaid base (λ (e : content.Exception). e.day) (λ e. e.working) (elements layout.exception (λ before e. e.day) 0 book.now list) days.old }
{
    let mut next = list.first;
    let mut before = 0;
    for _ in 0..list.count {
        let e = read_exception(book, next, before);
        mark(days, base, e.day, e.working);
        before = e.day;
        next = e.next;
    }
}

// The calendar's days between two dates, the first of them the table's base: what is set later counts more.
pub fn fill_days(book: &[u8], calendar: Calendar, from: u64, to: u64, days: &mut [u8])
    requires to_bound { to ≤ 47481 }
    requires from_in_bounds { to + 1 - from ≤ length days.old }
    requires calendar_in_range { CalendarInRange (calendar_of book.now calendar) }
    ensures { Shows (is_working (calendar_of book.now calendar)) from to days.new }
{
    fill_usual(calendar.week, calendar.region, from, to, days);
    overlay_days(book, calendar.holidays, false, from, days);
    overlay_days(book, calendar.extra, true, from, days);
    overlay_exceptions(book, calendar.exceptions, from, days);
}
