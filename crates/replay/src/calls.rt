// Calls over a book that leave rows in lent memory: `call NAME BOOK ASKED.. LENT = NUMBER AT NUMBER..`.
use answers::Reply;
use vectors::lent::Asked;
use vectors::{Outcome, hex, lent, names, text};

// What is answered where there is no such call.
const NO_CALL: u64 = 99;

// What is answered by a call that is asked of the book alone.
fn plain_call(place: u64, book: &[u8], out: &mut [u64]) -> Reply {
    match place {
        0 => engine::costs(book, out),
        1 => engine::project_cost(book, out),
        2 => engine::actual_by_kind(book, out),
        3 => engine::spending_by_month(book, out),
        4 => engine::period_points(book, out),
        5 => engine::variances(book, out),
        6 => engine::budget(book, out),
        7 => engine::funding(book, out),
        _ => engine::twelve_months(book, out),
    }
}

// The same by one that is asked with an activity or a date.
fn call_of_one(place: u64, book: &[u8], value: u64, out: &mut [u64]) -> Reply {
    match place {
        9 => engine::earned_value(book, value, out),
        10 => engine::project_earned(book, value, out),
        11 => engine::performance(book, value, out),
        12 => engine::project_indices(book, value, out),
        _ => engine::outline(book, value, out),
    }
}

// The same by one that is asked with two dates, or with an activity and a date.
fn call_of_two(place: u64, book: &[u8], first: u64, second: u64, out: &mut [u64]) -> Option<Reply> {
    match place {
        14 => Some(engine::spending(book, first, second, out)),
        15 => Some(engine::planned_curve(book, first, second, out)),
        16 => Some(engine::indices(book, first, second, out)),
        _ => None,
    }
}

// What the call at that place of the list answers, asked with as many of the two values as it takes; nothing where there is no such call.
fn call(place: u64, book: &[u8], first: u64, second: u64, out: &mut [u64]) -> Option<Reply> {
    if place < 9 {
        return Some(plain_call(place, book, out));
    }
    if place < 14 {
        return Some(call_of_one(place, book, first, out));
    }
    call_of_two(place, book, first, second, out)
}

// Whether a call with these numbers lent leaves what the line says behind its sign.
fn fills(line: &[u8], place: u64, book: &[u8], asked: Asked, out: &mut [u64]) -> bool {
    lent::lend(out);
    let reply = call(place, book, asked.first, asked.second, out);
    match reply {
        None => lent::says(line, asked.next, NO_CALL, 0, out),
        Some(Ok(rows)) => lent::says(line, asked.next, 0, rows, out),
        Some(Err(refusal)) => {
            lent::says(
                line,
                asked.next,
                u64::from(refusal.reason),
                refusal.place as u64,
                out,
            )
        }
    }
}

// The same with as much lent as is asked.
fn leaves(line: &[u8], place: u64, book: &[u8], asked: Asked) -> bool {
    let n = asked.lent;
    if lent::MOST < n {
        return false;
    }
    let mut out = [0u64; 600];
    fills(line, place, book, asked, &mut out[..n])
}

// The same over the book that begins at `from`.
fn holds(line: &[u8], place: u64, from: usize) -> bool {
    let mut bytes = [0u8; 32000];
    let read = hex::read_bytes(line, from, &mut bytes);
    let n = read.count;
    let asked = lent::read_asked(line, read.next);
    leaves(line, place, &bytes[..n], asked)
}

// Replays a line whose call's name begins at `from`.
pub fn replay(line: &[u8], from: usize) -> Outcome {
    let end = text::find(line, from, text::BLANK);
    if line.len() <= end {
        return vectors::untold(false);
    }
    let place = names::place(
        &line[from..end],
        b"costs project_cost actual_by_kind spending_by_month period_points variances budget funding twelve_months earned_value project_earned performance project_indices outline spending planned_curve indices ",
    );
    vectors::untold(holds(line, place, end + 1))
}
