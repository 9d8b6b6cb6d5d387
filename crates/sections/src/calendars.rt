// Calendars, and their lists of days.
ghost use Rattle.std.specs.Prelude.{◌≡◌};
ghost use Rattle.format.specs.Format as layout;
ghost use Rattle.sections.specs.Sections.{IsList, calendar_of};

use crate::Section;
use fields::kinds::{field, rising};
use format::{Pos, Reason, Region};
use records::calendars::{read_calendar_head, read_exception};

// A calendar, its lists by where they are.
#[derive(Clone, Copy)]
pub struct Calendar {
    pub week: u64,
    pub region: Region,
    pub holidays: Section,
    pub extra: Section,
    pub exceptions: Section,
    pub next: Pos,
}

// Up to 366 dates, strictly rising.
fn read_days(book: &[u8], at: Pos) -> Section
    ensures { IsList 0 366 layout.rising (λ before day. day) 0 book.now at result }
{
    let lead = field(book, at, 0, 367, Reason::CountOutOfRange);
    let first = lead.next;
    let count = lead.value;
    let mut next = first;
    let mut before: u64 = 0;
    for _ in 0..count {
        let d = rising(book, next, before);
        before = d.value;
        next = d.next;
    }
    Section { count, first, next }
}

// Up to 366 exceptions, their dates strictly rising.
fn read_exceptions(book: &[u8], at: Pos) -> Section
    ensures { IsList 0 366 layout.exception (λ before e. e.day) 0 book.now at result }
{
    let lead = field(book, at, 0, 367, Reason::CountOutOfRange);
    let first = lead.next;
    let count = lead.value;
    let mut next = first;
    let mut before: u64 = 0;
    for _ in 0..count {
        let e = read_exception(book, next, before);
        before = e.day;
        next = e.next;
    }
    Section { count, first, next }
}

// A calendar: what leads it, then its three lists.
pub fn read_calendar(book: &[u8], at: Pos) -> Calendar
    ensures { (calendar_of book.now result, result.next) ≡ (layout.calendar).read book.now at }
{
    let head = read_calendar_head(book, at);
    let holidays = read_days(book, head.next);
    let extra = read_days(book, holidays.next);
    let exceptions = read_exceptions(book, extra.next);
    Calendar {
        week: head.week,
        region: head.region,
        holidays,
        extra,
        exceptions,
        next: exceptions.next,
    }
}
