// What is asked of an opened book.
ghost use Rattle.std.specs.Prelude.{◌≡◌, ◌+◌, ◌≤◌};
ghost use Rattle.spending.specs.Asking.{frame_of};

use crate::charged::Frame;
use answers::open::Opened;
use spans::Stretch;

// A row for each date, one for each month, or one for each twelve months.
#[derive(Clone, Copy)]
pub enum Grain {
    Day,
    Month,
    TwelveMonths,
}

// By day, by month or by twelve months, between two dates of the stretch that the planned days of the book take; and the frame of its tables.
#[derive(Clone, Copy)]
pub struct Asked {
    pub opened: Opened,
    pub grain: Grain,
    pub known: Stretch,
    pub frame: Frame,
    pub from: u64,
    pub to: u64,
}

// The frame of tables for a stretch of dates.
pub fn frame_of(known: Stretch, assignments: u64) -> Frame
    requires { (known.from ≤ known.to + 1) × (known.to ≤ 47481) }
    ensures { result ≡ frame_of known assignments }
{
    Frame {
        base: known.from,
        width: known.to + 1 - known.from,
        assignments,
    }
}
