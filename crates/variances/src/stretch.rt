// The stretch of dates that the working days are counted over, and the tables for it.
ghost use Rattle.std.specs.Prelude.{ℕ, ◌+◌, ◌-◌, ◌*◌, ◌/◌, ◌≤◌, ◌<◌, ◌≡◌, true, length};
ghost use Rattle.format.specs.InRange.{Every, CalendarInRange};
ghost use Rattle.format.specs.Format as layout;
ghost use Rattle.sections.specs.Sections.{alike_in};
ghost use Rattle.variances.specs.Changed.{row_of};
ghost use Rattle.activities.specs.Schedule.{entry_at};
ghost use Rattle.variances.specs.Days.{has_line, dated_by, Tables, all_rows, Reaches, Bounded, widened, AreDates, Takes, Dated};

use crate::days::{EARLY_FINISH, EARLY_START, count_calendars};
use baseline::lines::{FINISH, LINE_WIDTH, START};
use sections::Section;
use spans::Stretch;

// The stretch with one date more; 0 is none.
fn widen(known: Stretch, date: u64) -> Stretch
    ensures { result ≡ widened known date }
{
    if date == 0 {
        return known;
    }
    Stretch {
        from: known.from.min(date),
        to: known.to.max(date),
    }
}

// With the dates of n rows of a table, one at a place in each row.
fn reach(known: Stretch, table: &[u64], n: usize, width: usize, at: usize) -> Stretch
    requires table_len { (length table.now ≡ n * width) × (at < width) }
    requires bounded { Bounded known }
    requires are_dates { AreDates table.now n width at }
    ensures { Takes known table.now n width at result }
{
    let mut wide = known;
    for i in 0..n {
        wide = widen(wide, table[i * width + at]);
    }
    wide
}

// The stretch of all early dates and dates of lines.
fn reach_all(schedule: &[u64], out: &[u64]) -> Stretch
    requires tables { Tables schedule.now out.now }
    requires dated { Dated schedule.now out.now }
    ensures bounded { Bounded result }
    ensures by_index { (i : ℕ) → i < length out.now / 5 → has_line (row_of 5 out.now i) ≡ true → Reaches result schedule.now i (row_of 5 out.now i) }
{
    let n = out.len() / 5;
    let none = Stretch {
        from: 47482,
        to: 10956,
    };
    let early = reach(none, schedule, n, 13, EARLY_START);
    let planned = reach(early, schedule, n, 13, EARLY_FINISH);
    let begun = reach(planned, out, n, LINE_WIDTH, START);
    reach(begun, out, n, LINE_WIDTH, FINISH)
}

// Over a stretch of dates, with tables of its own.
#[inline(never)]
fn count_sized<const DAYS: usize, const COUNTS: usize>(
    book: &[u8],
    list: Section,
    stretch: Stretch,
    schedule: &[u64],
    out: &mut [u64],
)
    requires every { Every CalendarInRange (alike_in layout.calendar book.now list) }
    requires tables { Tables schedule.now out.old }
    requires by_index { (i : ℕ) → i < length out.old / 5 → entry_at schedule.now i 1 < list.count }
    requires by_index_2 { (i : ℕ) → i < length out.old / 5 → has_line (row_of 5 out.old i) ≡ true → Reaches stretch schedule.now i (row_of 5 out.old i) }
    requires bounded { Bounded stretch }
    requires room { (stretch.to + 1 - stretch.from ≤ DAYS) × (stretch.to + 1 - stretch.from < COUNTS) }
    requires most { (DAYS ≤ 36525) × (COUNTS ≤ 36526) }
    ensures { out.new ≡ all_rows (dated_by (alike_in layout.calendar book.now list) schedule.now) out.old }
{
    let mut days = [0u8; DAYS];
    let mut counts = [0u64; COUNTS];
    count_calendars(book, list, stretch, schedule, &mut days, &mut counts, out);
}

// With the smallest tables that do.
pub fn count_days(book: &[u8], list: Section, schedule: &[u64], out: &mut [u64])
    requires every { Every CalendarInRange (alike_in layout.calendar book.now list) }
    requires tables { Tables schedule.now out.old }
    requires by_index { (i : ℕ) → i < length out.old / 5 → entry_at schedule.now i 1 < list.count }
    requires dated { Dated schedule.now out.old }
    ensures { out.new ≡ all_rows (dated_by (alike_in layout.calendar book.now list) schedule.now) out.old }
{
    let all = reach_all(schedule, out);
    if all.to < all.from + 256 {
        count_sized::<256, 257>(book, list, all, schedule, out);
        return;
    }
    if all.to < all.from + 2048 {
        count_sized::<2048, 2049>(book, list, all, schedule, out);
        return;
    }
    count_sized::<36525, 36526>(book, list, all, schedule, out);
}
