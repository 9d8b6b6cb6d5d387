// The working dates of a span, by a table of days: a byte for each date, 1 where it works, calendar after calendar. A calendar's row begins at entry `row`, with the date `base`.
ghost use Rattle.std.specs.Prelude.{◌≡◌, ◌+◌, ◌*◌, ◌-◌, ◌≤◌, ◌<◌, length, get_or};
ghost use Rattle.laid.specs.Listed.{in_row, tested_between, listed_in, span_of, Covers, IsSpan};

// A span of dates: the row of its calendar, its own first and last date, and how many of its dates work.
#[derive(Clone, Copy)]
pub struct Span {
    pub row: usize,
    pub base: u64,
    pub first: u64,
    pub last: u64,
    pub working: u64,
}

// What is found on dates one after another: how many were tested, and how many of them work.
#[derive(Clone, Copy)]
pub struct Tested {
    pub tested: u64,
    pub working: u64,
}

// Whether a date works.
pub fn is_working(days: &[u8], row: usize, base: u64, date: u64) -> bool
    requires { (base ≤ date) × (row + date < base + length days.now) }
    ensures { result ≡ in_row row base days.now date }
{
    days[row + (date - base) as usize] == 1
}

// Tests each date from the first to the last, once. It counts in 16 bits, which are enough for all dates, so that eight are added at a time.
pub fn test_dates(days: &[u8], row: usize, base: u64, first: u64, last: u64) -> Tested
    requires { Covers row base days.now first last }
    ensures { result ≡ tested_between row base days.now first last }
{
    let mut tested: u16 = 0;
    let mut working: u16 = 0;
    for date in first..last + 1 {
        if is_working(days, row, base, date) {
            working += 1;
        }
        tested += 1;
    }
    Tested {
        tested: u64::from(tested),
        working: u64::from(working),
    }
}

// A span under a calendar, its working dates counted; the rows are of `width` dates, from `base` on.
pub fn span_of(days: &[u8], base: u64, width: u64, calendar: u64, first: u64, last: u64) -> Span
    requires calendar_bound { (calendar ≤ 16) × (width ≤ 47482) }
    requires covers { Covers (calendar * width) base days.now first last }
    ensures { result ≡ span_of days.now (calendar * width) base first last }
{
    let row = (calendar * width) as usize;
    let found = test_dates(days, row, base, first, last);
    Span {
        row,
        base,
        first,
        last,
        working: found.working,
    }
}

// The first listed date of a span.
pub fn first_listed(days: &[u8], span: Span) -> u64
    requires { IsSpan days.now span }
    ensures { result ≡ get_or (listed_in days.now span) 0 0 }
{
    for date in span.first..span.last + 1 {
        if is_working(days, span.row, span.base, date) {
            return date;
        }
    }
    span.first
}

// The last listed date of a span.
pub fn last_listed(days: &[u8], span: Span) -> u64
    requires { IsSpan days.now span }
    ensures { result ≡ get_or (listed_in days.now span) (length (listed_in days.now span) - 1) 0 }
{
    for date in (span.first..span.last + 1).rev() {
        if is_working(days, span.row, span.base, date) {
            return date;
        }
    }
    span.first
}
