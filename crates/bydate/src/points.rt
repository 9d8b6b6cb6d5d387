// The points of a table by date: the dates that are marked, each with its sum, as rows of two numbers.
ghost use Rattle.std.specs.Prelude.{map, ◌≡◌, ◌+◌, ◌*◌, ◌-◌, ◌≤◌, ◌<◌, length, set};
ghost use Rattle.std.proofs.lemmas.List.Edits.{sets};
ghost use Rattle.answers.specs.Calls.{Puts};
ghost use Rattle.answers.specs.Rows.{point_row, point_rows};
ghost use Rattle.bydate.specs.Pointed.{is_marked, points_in, row_if, Reaches};

use answers::{Reply, TOO_SHORT};

// Whether something falls on a date.
pub fn is_marked(table: &[u64], base: u64, date: u64) -> bool
    requires { (base ≤ date) × ((date - base) * 2 + 1 < length table.now) }
    ensures { result ≡ is_marked base table.now date }
{
    table[(date - base) as usize * 2] == 1
}

// Sets number i, if there is one.
fn put(numbers: &mut [u64], i: usize, value: u64)
    ensures { numbers.new ≡ set numbers.old i value }
{
    if i < numbers.len() {
        numbers[i] = value;
    }
}

// Writes the row of a date that is marked, from number j on. Where the next row begins.
pub fn put_point(marked: bool, date: u64, sum: u64, j: usize, out: &mut [u64]) -> usize
    requires { j ≤ 1000000 }
    ensures value { result ≡ j + length (row_if marked date sum) }
    ensures out_after { out.new ≡ sets out.old j (row_if marked date sum) }
{
    if marked {
        put(out, j, date);
        put(out, j + 1, sum);
        return j + 2;
    }
    j
}

// Writes the rows of the points between two dates, as far as the numbers reach. How many numbers they are.
fn put_points(base: u64, from: u64, to: u64, table: &[u64], out: &mut [u64]) -> usize
    requires { Reaches base table.now from to }
    ensures value { result ≡ length (point_rows (points_in base table.now from to)) }
    ensures out_after { out.new ≡ sets out.old 0 (point_rows (points_in base table.now from to)) }
{
    let mut j: usize = 0;
    for date in from..to + 1 {
        let marked = is_marked(table, base, date);
        let sum = table[(date - base) as usize * 2 + 1];
        j = put_point(marked, date, sum, j, out);
    }
    j
}

// The points between two dates: the rows where they fit.
pub fn write_points(base: u64, from: u64, to: u64, table: &[u64], out: &mut [u64]) -> Reply
    requires { Reaches base table.now from to }
    ensures { Puts (map point_row (points_in base table.now from to)) out.old result out.new }
{
    let mut nothing = [0u64; 0];
    let n = put_points(base, from, to, table, &mut nothing);
    if out.len() < n {
        return Err(TOO_SHORT);
    }
    put_points(base, from, to, table, out);
    Ok(n as u64 / 2)
}
