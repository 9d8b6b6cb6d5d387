// The days of all calendars of the book in one table.
ghost use Rattle.std.specs.Prelude.{◌+◌, ◌*◌, ◌-◌, ◌≤◌, length};
ghost use Rattle.format.specs.InRange.{Every, CalendarInRange};
ghost use Rattle.format.specs.Format as layout;
ghost use Rattle.sections.specs.Sections.{alike_in};
ghost use Rattle.calendar.specs.Tables.{ShowsAll};

use crate::days::fill_days;
use sections::Section;
use sections::calendars::read_calendar;

// Calendar after calendar, each with a byte for each date between two.
pub fn fill_all(book: &[u8], calendars: Section, from: u64, to: u64, days: &mut [u8])
    requires to_bound { to ≤ 47481 }
    requires from_in_bounds { calendars.count * (to + 1 - from) ≤ length days.old }
    requires every { Every CalendarInRange (alike_in layout.calendar book.now calendars) }
    ensures { ShowsAll (alike_in layout.calendar book.now calendars) from to days.new }
{
    if to < from {
        return;
    }
    let width = (to + 1 - from) as usize;
    let mut next = calendars.first;
    for i in 0..calendars.count {
        let calendar = read_calendar(book, next);
        let at = i as usize * width;
        fill_days(book, calendar, from, to, &mut days[at..at + width]);
        next = calendar.next;
    }
}
