// What a call is asked, and what it leaves in lent memory, as a line says it: `ASKED.. LENT = NUMBER AT NUMBER..`.
use crate::{line, text};

// The most numbers that a line lends.
pub const MOST: usize = 600;

const EQUALS: u8 = 61;

// The first two numbers asked, how many numbers are lent, and where the line goes on behind its sign. More than MOST are
// lent where the line does not say it.
#[derive(Clone, Copy)]
pub struct Asked {
    pub first: u64,
    pub second: u64,
    pub lent: usize,
    pub next: usize,
}

// The line does not say what is asked.
fn unsaid() -> Asked {
    Asked {
        first: 0,
        second: 0,
        lent: MOST + 1,
        next: 0,
    }
}

// What a line asks from `from` on.
pub fn read_asked(s: &[u8], from: usize) -> Asked {
    let sign = text::find(s, from, EQUALS);
    if s.len() <= sign {
        return unsaid();
    }
    let line = line::numbers(s, from);
    let given = line.given;
    if given == 0 {
        return unsaid();
    }
    if line::ROOM < given {
        return unsaid();
    }
    let values = line.values;
    Asked {
        first: values[0],
        second: values[1],
        lent: values[given - 1] as usize,
        next: sign + 1,
    }
}

// Number k of lent memory before the call is (k + 1) × 1,000,003.
pub fn lend(out: &mut [u64]) {
    let mut value: u64 = 0;
    for number in out.iter_mut() {
        value = value.wrapping_add(1000003);
        *number = value;
    }
}

// Where a line goes on after a number, if it stands at `at`.
fn after(line: &[u8], at: usize, value: u64) -> Option<usize> {
    let from = text::past_blanks(line, at);
    let read = text::number(line, from)?;
    if read.value != value {
        return None;
    }
    Some(read.next)
}

// Whether the line has these numbers from `at` on, and nothing else.
fn lists(line: &[u8], at: usize, numbers: &[u64]) -> bool {
    let mut from = at;
    for &number in numbers {
        match after(line, from, number) {
            Some(next) => from = next,
            None => return false,
        }
    }
    from == line.len()
}

// Whether the line says, from `at` on, the number and the count or place that were returned, and what lent memory holds.
pub fn says(line: &[u8], at: usize, number: u64, place: u64, numbers: &[u64]) -> bool {
    let Some(next) = after(line, at, number) else {
        return false;
    };
    match after(line, next, place) {
        Some(rest) => lists(line, rest, numbers),
        None => false,
    }
}
