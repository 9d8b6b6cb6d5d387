// The computus: the date of Easter Sunday.
#![tactic(auto)]

ghost use Rattle.std.specs.Prelude.{◌≡◌};
ghost use Rattle.computus.specs.Easter.{easter_of};

// Easter Sunday, by the anonymous Gregorian algorithm (Meeus). The year is counted from year -5,700,000: after so many years
// Easter's dates repeat, and no quotient is of a negative number.
pub fn easter(year: i32) -> Option<i32>
    ensures { result ≡ easter_of year }
{
    if !dates::is_year(year) {
        return None;
    }
    let y = gregorian::count::counted_from(5700000, year);
    let a = y % 19;
    let b = y / 100;
    let c = y % 100;
    let d = b / 4;
    let e = b % 4;
    let f = (b + 8) / 25;
    let g = (b - f + 1) / 3;
    let h = (19 * a + b - d - g + 15) % 30;
    let i = c / 4;
    let k = c % 4;
    let l = (32 + 2 * e + 2 * i - h - k) % 7;
    let m = (a + 11 * h + 22 * l) / 451;
    let q = h + l - 7 * m + 114;
    dates::from_ymd(year, q / 31, q % 31 + 1)
}
