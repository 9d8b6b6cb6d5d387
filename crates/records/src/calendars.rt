// Calendars: what leads one, and its exceptions.
ghost use Rattle.std.specs.Prelude.{◌≡◌};
ghost use Rattle.format.specs.Field.{U};
ghost use Rattle.format.specs.Codec as codec;
ghost use Rattle.format.specs.Codec.{◌&◌};
ghost use Rattle.format.specs.Enumeration.{region};
ghost use Rattle.format.specs.Format as layout;
ghost use Rattle.records.specs.Decoded.{exception_of};

use fields::kinds::{field, rising};
use format::{Pos, Reason, Region};

// What leads a calendar. Its days follow.
#[derive(Clone, Copy)]
pub struct CalendarHead {
    pub week: u64,
    pub region: Region,
    pub next: Pos,
}

#[derive(Clone, Copy)]
pub struct Exception {
    pub day: u64,
    pub working: bool,
    pub next: Pos,
}

pub fn read_calendar_head(book: &[u8], at: Pos) -> CalendarHead
    ensures { ((result.week, result.region), result.next) ≡ (codec.field (U 0 127) & region).read book.now at }
{
    let week = field(book, at, 0, 128, Reason::OutOfRange);
    let region = field(book, week.next, 0, 2, Reason::OutOfRange);
    CalendarHead {
        week: week.value,
        region: Region::from(region.value),
        next: region.next,
    }
}

// An exception after one on the day `before`, which is 0 for the first.
pub fn read_exception(book: &[u8], at: Pos, before: u64) -> Exception
    ensures { (exception_of result, result.next) ≡ (layout.exception before).read book.now at }
{
    let day = rising(book, at, before);
    let working = field(book, day.next, 0, 2, Reason::OutOfRange);
    Exception {
        day: day.value,
        working: working.value != 0,
        next: working.next,
    }
}
