// The status of a book as text, made page by page: each page fits a buffer of 524,288 bytes, and the four pages, one behind
// the other, are the text.
#![tactic(auto)]

ghost use Rattle.std.specs.Prelude.{◌≡◌, ◌++◌, ◌+◌, ◌≤◌, ◌<◌, suc, length, take};
ghost use Rattle.format.specs.Verdict.{content, Accepted};
ghost use Rattle.report.specs.Status.{asked_at, total_line, EarnedIn, status_page};

use answers::EARNED_WIDTH;
use book::layout::read_layout;
use lines::{put_activities, put_earned_line, put_points, put_refusal};

pub mod lines;
pub mod outline;

// How many pages a status has.
pub const PAGES: u64 = 4;

// The first date of D's range, and the last.
const FIRST_DAY: u64 = 10957;

const LAST_DAY: u64 = 47481;

// The numbers of 500 rows of earned value: more no book has.
const MOST_NUMBERS: usize = 500 * EARNED_WIDTH;

// How many dates the curve is asked for at a time: a third of D's range.
const STRETCH: u64 = 12175;

// The memory of a page, empty: 43 bytes for each point of a stretch are 523,525.
pub fn page_buffer() -> [u8; 524288]
    ensures { 524288 ≡ length result }
{
    [0; 524288]
}

// The date that a book is asked at: its data date, or the last date.
pub fn asked_date(book: &[u8]) -> u64
    ensures { result ≡ asked_at (content book.now).data_date }
{
    let layout = read_layout(book);
    let header = layout.header;
    let date = header.date;
    match date {
        Some(day) => day,
        None => LAST_DAY,
    }
}

// Puts the total's line behind the first `at` bytes. The call is not refused: the book is accepted, and its date in range.
fn put_total(book: &[u8], day: u64, out: &mut [u8], at: usize) -> usize
    requires accepted { Accepted book.now }
    requires day_value { day ≡ asked_at (content book.now).data_date }
    requires at_in_bounds { at + 138 ≤ length out.old }
    ensures upper_bound { result ≤ at + 138 }
    ensures out_after { take result out.new ≡ take at out.old ++ total_line (content book.now) day }
{
    let mut row = [0u64; EARNED_WIDTH];
    let _ = engine::project_earned(book, day, &mut row);
    put_earned_line(out, at, b"total", &row)
}

// Puts the first page of an accepted book: a line for each of its rows, and the total.
fn put_accepted(book: &[u8], day: u64, rows: &[u64], count: usize, out: &mut [u8]) -> usize
    requires earned_in { EarnedIn book.now day count rows.now }
    requires in_bounds { 76638 ≤ length out.old }
    ensures upper_bound { result ≤ 76638 }
    ensures out_after { take result out.new ≡ status_page book.now 0 }
{
    let end = put_activities(out, rows, count);
    put_total(book, day, out, end)
}

// Puts the first page: a line for each activity and the total, or the refusal of the book.
fn put_earned(book: &[u8], out: &mut [u8]) -> usize
    requires { 76638 ≤ length out.old }
    ensures upper_bound { result ≤ 76638 }
    ensures out_after { take result out.new ≡ status_page book.now 0 }
{
    let day = asked_date(book);
    let mut rows = [0u64; MOST_NUMBERS];
    let reply = engine::earned_value(book, day, &mut rows);
    match reply {
        Ok(count) => put_accepted(book, day, &rows, count as usize, out),
        Err(refusal) => put_refusal(out, u64::from(refusal.reason), refusal.place),
    }
}

// Puts the page of a stretch: a line for each point of the curve there. The call is refused where the book is, and then the
// page is empty.
fn put_stretch(book: &[u8], stretch: u64, out: &mut [u8]) -> usize
    requires stretch_bound { stretch < 3 }
    requires in_bounds { 523525 ≤ length out.old }
    ensures upper_bound { result ≤ 523525 }
    ensures out_after { take result out.new ≡ status_page book.now (suc stretch) }
{
    let mut points = [0u64; 24350];
    let from = FIRST_DAY + stretch * STRETCH;
    let reply = engine::planned_curve(book, from, from + (STRETCH - 1), &mut points);
    match reply {
        Ok(count) => put_points(out, &points, count as usize),
        Err(_) => 0,
    }
}

// Puts a page of the status of a book.
pub fn put_page(book: &[u8], page: u64, out: &mut [u8]) -> usize
    requires page_bound { page < 4 }
    requires in_bounds { 524288 ≤ length out.old }
    ensures upper_bound { result ≤ 524288 }
    ensures out_after { take result out.new ≡ status_page book.now page }
{
    if page == 0 {
        return put_earned(book, out);
    }
    put_stretch(book, page - 1, out)
}
