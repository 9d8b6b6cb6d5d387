// Running counts of working dates.
ghost use Rattle.std.specs.Prelude.{◌≡◌, ◌+◌, ◌-◌, ◌≤◌, ◌<◌, length};
ghost use Rattle.format.specs.InRange.{CalendarInRange};
ghost use Rattle.sections.specs.Sections.{calendar_of};
ghost use Rattle.lists.specs.Lists.{keep};
ghost use Rattle.model.specs.Calendar.{is_working};
ghost use Rattle.model.specs.Days.{dates_between};
ghost use Rattle.calendar.specs.Tables.{one, works, steps, Counts, Rises};

use crate::days::fill_days;
use sections::calendars::Calendar;

// 1 if the date works, 0 if not.
fn worked(days: &[u8], base: u64, date: u64) -> u64
    requires { base ≤ date }
    ensures { result ≡ one (works base days.now date) }
{
    let i = (date - base) as usize;
    u64::from(i < days.len() && days[i] == 1)
}

// At each date from `from`, the base of both tables, to the one after `to`: how many dates before it work.
pub fn count_days(days: &[u8], counts: &mut [u64], from: u64, to: u64)
    requires to_bound { to ≤ 47481 }
    requires from_in_bounds { to + 1 - from < length counts.old }
    ensures { Counts (works from days.now) from to counts.new }
{
    let mut n: u64 = 0;
    for date in from..to + 2 {
        counts[(date - from) as usize] = n;
        n += worked(days, from, date);
    }
}

// The same of a calendar of the book, by way of a table of its days.
pub fn fill_counts(
    book: &[u8],
    calendar: Calendar,
    from: u64,
    to: u64,
    days: &mut [u8],
    counts: &mut [u64],
)
    requires to_bound { to ≤ 47481 }
    requires from_in_bounds { (to + 1 - from ≤ length days.old) × (to + 1 - from < length counts.old) }
    requires calendar_in_range { CalendarInRange (calendar_of book.now calendar) }
    ensures { Counts (is_working (calendar_of book.now calendar)) from to counts.new }
{
    fill_days(book, calendar, from, to, days);
    count_days(days, counts, from, to);
}

// How many dates between two work, both included.
pub fn days_between(counts: &[u64], base: u64, from: u64, to: u64) -> u64
    requires base_le_from { (base ≤ from) × (to ≤ 47481) }
    requires base_in_bounds { to + 1 - base < length counts.now }
    requires rises { Rises base from to counts.now }
    ensures { result ≡ length (keep (steps base counts.now) (dates_between from to)) }
{
    if to < from {
        return 0;
    }
    let before = counts[(from - base) as usize];
    let through = counts[(to + 1 - base) as usize];
    through - before
}
