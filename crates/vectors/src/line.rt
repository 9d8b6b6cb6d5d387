// A vector: a line with a function's name, its arguments, the sign `=` and the numbers that the function must give.
use crate::answer::{Answer, agrees};

// How many numbers a line has at the most.
pub const ROOM: usize = 16;

const EQUALS: u8 = 61;

// The numbers of a line, in order: `given` of them stand before the sign, `count` are there in all. `at` is where reading
// stopped.
#[derive(Clone, Copy)]
pub struct Line {
    pub values: [u64; 16],
    pub given: usize,
    pub count: usize,
    pub at: usize,
}

// A number more.
fn with_number(line: Line, value: u64, next: usize) -> Line {
    let count = line.count;
    if ROOM <= count {
        return line;
    }
    let mut values = line.values;
    values[count] = value;
    Line {
        values: values,
        given: line.given,
        count: count + 1,
        at: next,
    }
}

// The line with what stands at its place read: the sign, a number, or nothing that it can read.
fn step(s: &[u8], line: Line) -> Line {
    let at = crate::text::past_blanks(s, line.at);
    if at < s.len() {
        if s[at] == EQUALS {
            let values = line.values;
            return Line {
                values: values,
                given: line.count,
                count: line.count,
                at: at + 1,
            };
        }
    }
    match crate::text::number(s, at) {
        Some(number) => with_number(line, number.value, number.next),
        None => line,
    }
}

// The numbers of a line from `from` on.
pub fn numbers(s: &[u8], from: usize) -> Line {
    let mut line = Line {
        values: [0; 16],
        given: ROOM,
        count: 0,
        at: from,
    };
    for _turn in 0..ROOM + 1 {
        line = step(s, line);
    }
    line
}

// Whether that is all of a line, and its numbers behind the sign are those of the answer.
pub fn says(s: &[u8], line: Line, a: Answer) -> bool {
    if line.at != s.len() {
        return false;
    }
    agrees(a, line.values, line.given, line.count)
}
