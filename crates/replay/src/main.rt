// Replays vectors from standard input: each line names a function, its arguments and the numbers that it must give. Prints
// each line that differs, with what the function gave unless it is a call that leaves rows, and a count.
#![tactic(auto)]

ghost use Rattle.std.specs.Prelude.{◌<◌, ◌≤◌, length};

mod books;
mod calls;

use vectors::{Difference, Outcome, names, text};

const IN: i32 = 0;

const OUT: i32 = 1;

// More blocks than any input has.
const BLOCKS: u64 = 1099511627776;

// How many lines were replayed, and how many of them differ.
#[derive(Clone, Copy)]
struct Tally {
    pub lines: u64,
    pub differ: u64,
}

// Where the whole lines of a block end, and the count so far.
#[derive(Clone, Copy)]
struct Block {
    pub end: usize,
    pub tally: Tally,
}

fn print(s: &[u8]) {
    io::write_all(OUT, s);
}

// What a function gave, where that is told.
fn tell(values: [u64; 4], n: usize) {
    if 0 < n {
        print(b" gives");
    }
    for &value in values.iter().take(n) {
        print(b" ");
        io::print_decimal(OUT, value);
    }
}

// A line that differs, and how.
fn report(line: &[u8], difference: Difference) {
    print(b"differs: ");
    print(line);
    match difference {
        Difference::Gave(a) => tell(a.values, a.count),
        Difference::NoFunction => print(b" names no function"),
    }
    print(b"\n");
}

// Replays a line by the place of its first word: the verdict on a book, a call that leaves rows in lent memory, or a
// function.
fn outcome(line: &[u8], place: u64, end: usize) -> Outcome
    requires { end < length line.now }
{
    match place {
        0 => books::replay(line, end + 1),
        1 => calls::replay(line, end + 1),
        _ => vectors::replay(line, end),
    }
}

// The count with one line more.
fn counted(line: &[u8], o: Outcome, tally: Tally) -> Tally {
    let lines = tally.lines.saturating_add(1);
    match o {
        Ok(()) => Tally {
            lines,
            differ: tally.differ,
        },
        Err(difference) => {
            report(line, difference);
            Tally {
                lines,
                differ: tally.differ.saturating_add(1),
            }
        }
    }
}

// Replays one line.
fn replay(line: &[u8], tally: Tally) -> Tally {
    let end = text::find(line, 0, text::BLANK);
    if line.len() <= end {
        return counted(line, Err(Difference::NoFunction), tally);
    }
    let place = names::place(&line[..end], b"verdict call ");
    counted(line, outcome(line, place, end), tally)
}

// Replays the whole lines among the first `full` bytes of a buffer.
fn replay_block(buf: &[u8], full: usize, tally: Tally) -> Block
    requires { full ≤ length buf.now }
    ensures { result.end ≤ full }
{
    let mut from: usize = 0;
    let mut now = tally;
    while from < full {
        let to = text::find(buf, from, text::LINE_FEED);
        if full <= to {
            break;
        }
        now = replay(&buf[from..to], now);
        from = to + 1;
    }
    Block {
        end: from,
        tally: now,
    }
}

// What a turn leaves: how many bytes of a line begun stand at the buffer's start, and the count so far.
#[derive(Clone, Copy)]
struct Turn {
    pub have: usize,
    pub tally: Tally,
}

// Fills the buffer behind what it has, and replays its whole lines; nothing where the input ends, which is where nothing more is read.
fn read_block(buf: &mut [u8], have: usize, tally: Tally) -> Option<Turn> {
    if buf.len() < have {
        return None;
    }
    let got = io::read_full(IN, &mut buf[have..]);
    if got == 0 {
        return None;
    }
    let full = have + got;
    let block = replay_block(buf, full, tally);
    buf.copy_within(block.end..full, 0);
    Some(Turn {
        have: full - block.end,
        tally: block.tally,
    })
}

fn main() {
    let mut space = io::large_buffer();
    let mut have: usize = 0;
    let mut tally = Tally {
        lines: 0,
        differ: 0,
    };
    for _block in 0..BLOCKS {
        match read_block(&mut space, have, tally) {
            Some(turn) => {
                have = turn.have;
                tally = turn.tally;
            }
            None => break,
        }
    }
    if 0 < have {
        print(b"the last line does not end\n");
    }
    io::print_decimal(OUT, tally.lines);
    print(b" vectors, ");
    io::print_decimal(OUT, tally.differ);
    print(b" differ\n");
}
