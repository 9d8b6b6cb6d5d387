// How large tables by date are: small ones are enough for most books, and take less to clear.
ghost use Rattle.std.specs.Prelude.{true, ◌≡◌, ◌+◌, ◌≤◌};
ghost use Rattle.bydate.specs.Sizes.{FitsSmall};

use spans::Stretch;

// Whether small tables are large enough for a stretch of dates, and for the days of so many calendars.
pub fn fits_small(calendars: u64, known: Stretch) -> bool
    requires { (known.from ≤ known.to + 1) × (known.to ≤ 47481) × (calendars ≤ 16) }
    ensures { result ≡ true → FitsSmall calendars known }
{
    let width = known.to + 1 - known.from;
    if 2048 < width {
        return false;
    }
    calendars * width <= 8192
}
