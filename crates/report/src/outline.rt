// The outline of a book as text, which fits a buffer of 87,000 bytes.
ghost use Rattle.std.specs.Prelude.{◌≤◌, ◌≡◌, length, take};
ghost use Rattle.report.specs.Outline.{outline_text};

use crate::asked_date;
use crate::lines::{put_outline_rows, put_refusal};
use answers::OUTLINE_WIDTH;

// The numbers of 500 rows of the outline: more no book has.
const MOST_NUMBERS: usize = 500 * OUTLINE_WIDTH;

// The memory of the text, empty: 174 bytes for each of 500 lines.
pub fn outline_buffer() -> [u8; 87000]
    ensures { 87000 ≡ length result }
{
    [0; 87000]
}

// Puts the outline of a book: a line for each of its rows, or the refusal of the book.
pub fn put_outline(book: &[u8], out: &mut [u8]) -> usize
    requires { 87000 ≤ length out.old }
    ensures upper_bound { result ≤ 87000 }
    ensures out_after { take result out.new ≡ outline_text book.now }
{
    let day = asked_date(book);
    let mut rows = [0u64; MOST_NUMBERS];
    let reply = engine::outline(book, day, &mut rows);
    match reply {
        Ok(count) => put_outline_rows(out, &rows, count as usize),
        Err(refusal) => put_refusal(out, u64::from(refusal.reason), refusal.place),
    }
}
