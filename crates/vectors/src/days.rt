// The crates `dates` and `holidays`.
use crate::answer::{Answer, four, one, two};
use crate::names::place;
use dates::YearMonthDay;
use dates::week::Weekday;
use money::words::{from_bits, to_bits};

// A number of 32 bits, signed; 0 for one that has more.
fn signed(u: u64) -> i32 {
    i32::try_from(from_bits(u)).unwrap_or(0)
}

// A number of 32 bits; 0 for one that has more.
fn unsigned(u: u64) -> u32 {
    u32::try_from(u).unwrap_or(0)
}

fn bits(z: i32) -> u64 {
    to_bits(i64::from(z))
}

fn day(d: Option<i32>) -> Answer {
    match d {
        Some(days) => two(1, bits(days)),
        None => two(0, 0),
    }
}

fn date(d: Option<YearMonthDay>) -> Answer {
    match d {
        Some(x) => four(1, bits(x.year), u64::from(x.month), u64::from(x.day)),
        None => four(0, 0, 0, 0),
    }
}

fn weekday(w: Option<Weekday>) -> Answer {
    match w {
        Some(d) => two(1, d.index() as u64),
        None => two(0, 0),
    }
}

fn holiday(days: i32) -> Answer {
    one(u64::from(holidays::is_holiday(days)))
}

// What the function of that name gives; nothing where there is none.
pub fn answer(name: &[u8], x: [u64; 16]) -> Option<Answer> {
    let z = signed(x[0]);
    let given = match place(name, b"from_ymd from_days ymd weekday easter is_holiday ") {
        0 => day(dates::from_ymd(z, unsigned(x[1]), unsigned(x[2]))),
        1 => day(dates::from_days(z)),
        2 => date(dates::ymd(z)),
        3 => weekday(dates::weekday(z)),
        4 => day(computus::easter(z)),
        5 => holiday(z),
        _ => return None,
    };
    Some(given)
}
