// The months: each that has a marked date, with its dates' sums added up, as a row of two numbers.
ghost use Rattle.std.specs.Prelude.{map, ◌≡◌, ◌≤◌, length};
ghost use Rattle.std.proofs.lemmas.List.Edits.{sets};
ghost use Rattle.months.specs.Table.{first_days};
ghost use Rattle.model.specs.Amounts.{saturated_sum};
ghost use Rattle.answers.specs.Calls.{Puts};
ghost use Rattle.answers.specs.Rows.{point_row, point_rows};
ghost use Rattle.bydate.specs.Pointed.{points_in, Reaches};
ghost use Rattle.bydate.specs.Months.{by_month};

use crate::points::{is_marked, put_point};
use answers::{Reply, TOO_SHORT};
use money::sums::saturating_add;
use money::words::{from_bits, to_bits};
use months::{first_day, first_days, last_day, month_at};

// How many points there are between two dates, and what they come to.
#[derive(Clone, Copy)]
pub struct Sum {
    pub points: u64,
    pub total: i64,
}

// The points between two dates, added up.
pub fn sum_between(base: u64, first: u64, last: u64, table: &[u64]) -> Sum
    requires { Reaches base table.now first last }
    ensures points { result.points ≡ length (points_in base table.now first last) }
    ensures total { result.total ≡ saturated_sum (points_in base table.now first last) }
{
    let mut points: u64 = 0;
    let mut total: i64 = 0;
    for date in first..last + 1 {
        if is_marked(table, base, date) {
            let sum = from_bits(table[(date - base) as usize * 2 + 1]);
            total = saturating_add(total, sum);
            points += 1;
        }
    }
    Sum { points, total }
}

// Writes the rows, as far as the numbers reach. How many numbers they are.
fn put_months(
    base: u64,
    from: u64,
    to: u64,
    days: &[u16; 1200],
    table: &[u64],
    out: &mut [u64],
) -> usize
    requires reaches { Reaches base table.now from to }
    requires le_from { 10957 ≤ from }
    requires days_value { days.now ≡ first_days }
    ensures value { result ≡ length (point_rows (by_month (points_in base table.now from to))) }
    ensures out_after { out.new ≡ sets out.old 0 (point_rows (by_month (points_in base table.now from to))) }
{
    if to < from {
        return 0;
    }
    let mut j: usize = 0;
    let mut date = from;
    let mut month = month_at(days, from);
    let mut first = first_day(days, month);
    while date <= to {
        let end = last_day(days, month);
        let last = to.min(end);
        let sum = sum_between(base, date, last, table);
        j = put_point(0 < sum.points, first, to_bits(sum.total), j, out);
        date = last + 1;
        first = end + 1;
        month += 1;
    }
    j
}

// The months between two dates: the rows where they fit.
pub fn write_months(base: u64, from: u64, to: u64, table: &[u64], out: &mut [u64]) -> Reply
    requires reaches { Reaches base table.now from to }
    requires le_from { 10957 ≤ from }
    ensures { Puts (map point_row (by_month (points_in base table.now from to))) out.old result out.new }
{
    let days = first_days();
    let mut nothing = [0u64; 0];
    let n = put_months(base, from, to, &days, table, &mut nothing);
    if out.len() < n {
        return Err(TOO_SHORT);
    }
    put_months(base, from, to, &days, table, out);
    Ok(n as u64 / 2)
}
