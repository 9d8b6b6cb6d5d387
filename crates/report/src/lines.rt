// The lines of a report, put into a buffer one behind the other. What a function puts stands at the front, up to the place
// that it returns.
ghost use Rattle.std.specs.Prelude.{◌≡◌, [], ◌++◌, ◌+◌, ◌*◌, ◌≤◌, length, take};
ghost use Rattle.answers.specs.Rows.{earned_width, outline_width};
ghost use Rattle.text.specs.Text.{decimal};
ghost use Rattle.report.specs.Lines.{earned_line, outline_row_line, activity_lines, outline_lines, point_lines, refusal_line};

use answers::{EARNED_WIDTH, OUTLINE_WIDTH};
use text::{put, put_decimal, put_figures, put_last, put_line, put_pair, put_row};

// Puts the line of a refusal.
pub fn put_refusal(out: &mut [u8], number: u64, place: usize) -> usize
    requires { 52 ≤ length out.old }
    ensures upper_bound { result ≤ 52 }
    ensures out_after { take result out.new ≡ refusal_line number place }
{
    let numbers = [number, place as u64];
    put_line(out, 0, b"refused", &numbers)
}

// Puts the columns of a row of earned value behind what leads its line, and the line's end.
fn put_columns(out: &mut [u8], at: usize, row: &[u64]) -> usize
    requires row_len { length row.now ≡ earned_width }
    requires at_in_bounds { at + 133 ≤ length out.old }
    ensures upper_bound { result ≤ at + 133 }
    ensures out_after { take result out.new ≡ take at out.old ++ earned_line [] row.now }
{
    let end = put_figures(out, at, &row[..5]);
    put_last(out, end, row[5], row[6])
}

// Puts the line of a row of earned value that an index leads.
fn put_earned_row(out: &mut [u8], at: usize, index: u64, row: &[u64]) -> usize
    requires row_len { length row.now ≡ earned_width }
    requires at_in_bounds { at + 153 ≤ length out.old }
    ensures upper_bound { result ≤ at + 153 }
    ensures out_after { take result out.new ≡ take at out.old ++ earned_line (decimal index) row.now }
{
    let head = put_decimal(out, at, index);
    put_columns(out, head, row)
}

// Puts the line of a row of earned value that a word leads.
pub fn put_earned_line(out: &mut [u8], at: usize, word: &[u8], row: &[u64]) -> usize
    requires row_len { length row.now ≡ earned_width }
    requires word_in_bounds { at + length word.now + 133 ≤ length out.old }
    ensures upper_bound { result ≤ at + length word.now + 133 }
    ensures out_after { take result out.new ≡ take at out.old ++ earned_line word.now row.now }
{
    let head = put(out, at, word);
    put_columns(out, head, row)
}

// Puts a line for each of the first rows of earned value, led by its index.
pub fn put_activities(out: &mut [u8], rows: &[u64], count: usize) -> usize
    requires earned_width_in_bounds { count * earned_width ≤ length rows.now }
    requires count_in_bounds { count * 153 ≤ length out.old }
    ensures upper_bound { result ≤ count * 153 }
    ensures out_after { take result out.new ≡ activity_lines rows.now count }
{
    let mut end: usize = 0;
    for i in 0..count {
        let at = i * EARNED_WIDTH;
        end = put_earned_row(out, end, i as u64, &rows[at..at + EARNED_WIDTH]);
    }
    end
}

// Puts the line of a row of the outline.
fn put_outline_row(out: &mut [u8], at: usize, row: &[u64]) -> usize
    requires row_len { length row.now ≡ outline_width }
    requires at_in_bounds { at + 174 ≤ length out.old }
    ensures upper_bound { result ≤ at + 174 }
    ensures out_after { take result out.new ≡ take at out.old ++ outline_row_line row.now }
{
    let head = put_pair(out, at, row[0], row[1]);
    put_columns(out, head, &row[2..])
}

// Puts a line for each of the first rows of the outline.
pub fn put_outline_rows(out: &mut [u8], rows: &[u64], count: usize) -> usize
    requires outline_width_in_bounds { count * outline_width ≤ length rows.now }
    requires count_in_bounds { count * 174 ≤ length out.old }
    ensures upper_bound { result ≤ count * 174 }
    ensures out_after { take result out.new ≡ outline_lines rows.now count }
{
    let mut end: usize = 0;
    for i in 0..count {
        let at = i * OUTLINE_WIDTH;
        end = put_outline_row(out, end, &rows[at..at + OUTLINE_WIDTH]);
    }
    end
}

// Puts a line for each of the first points: its date and its figure.
pub fn put_points(out: &mut [u8], points: &[u64], count: usize) -> usize
    requires count_in_bounds { count * 2 ≤ length points.now }
    requires count_in_bounds_2 { count * 43 ≤ length out.old }
    ensures upper_bound { result ≤ count * 43 }
    ensures out_after { take result out.new ≡ point_lines points.now count }
{
    let mut end: usize = 0;
    for i in 0..count {
        let at = i * 2;
        end = put_row(out, end, points[at], &points[at + 1..at + 2]);
    }
    end
}
