// Reading the text of a vector: decimal numbers, with a sign or without, between blanks.
ghost use Rattle.std.specs.Prelude.{◌≤◌};

use std::str::from_utf8;

pub const LINE_FEED: u8 = 10;

pub const BLANK: u8 = 32;

const MINUS: u8 = 45;

// A number that was read, and where it ends.
#[derive(Clone, Copy)]
pub struct Found {
    pub value: u64,
    pub next: usize,
}

// The first place from `at` on that is no digit.
fn past_digits(s: &[u8], at: usize) -> usize {
    for i in at..s.len() {
        if !s[i].is_ascii_digit() {
            return i;
        }
    }
    at.max(s.len())
}

// The number that digits from `from` on write, if there is one and it fits.
fn digits(s: &[u8], from: usize) -> Option<Found> {
    let next = past_digits(s, from);
    let text = from_utf8(s.get(from..next)?).ok()?;
    let value = text.parse::<u64>().ok()?;
    Some(Found { value, next })
}

// The number at `at`, a negative one in two's complement.
pub fn number(s: &[u8], at: usize) -> Option<Found> {
    if *s.get(at)? != MINUS {
        return digits(s, at);
    }
    let size = digits(s, at + 1)?;
    Some(Found {
        value: size.value.wrapping_neg(),
        next: size.next,
    })
}

// The first place from `at` on that is not blank.
pub fn past_blanks(s: &[u8], at: usize) -> usize {
    for i in at..s.len() {
        if s[i] != BLANK {
            return i;
        }
    }
    at.max(s.len())
}

// The first place from `at` on that holds b, or the end.
pub fn find(s: &[u8], at: usize, b: u8) -> usize
    ensures { at ≤ result }
{
    for i in at..s.len() {
        if s[i] == b {
            return i;
        }
    }
    at.max(s.len())
}
