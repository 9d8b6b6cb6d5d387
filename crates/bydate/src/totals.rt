// The running total over a table by date, and its points as rows.
ghost use Rattle.std.specs.Prelude.{map, ◌≡◌, pos};
ghost use Rattle.lists.specs.Lists.{keep};
ghost use Rattle.model.specs.Amounts.{is_between};
ghost use Rattle.model.specs.Planned.{running};
ghost use Rattle.answers.specs.Calls.{Puts};
ghost use Rattle.answers.specs.Rows.{point_row};
ghost use Rattle.bydate.specs.Pointed.{points_in, Reaches};

use crate::points::{is_marked, write_points};
use answers::Reply;
use money::sums::saturating_add;
use money::words::{from_bits, to_bits};

// The sum of each marked date between two becomes the total from the first of them up to it.
fn run_up(base: u64, first: u64, to: u64, table: &mut [u64])
    requires { Reaches base table.old first to }
    ensures { points_in base table.new first to ≡ running (pos 0) (points_in base table.old first to) }
{
    let mut total: i64 = 0;
    for date in first..to + 1 {
        if is_marked(table, base, date) {
            let at = (date - base) as usize * 2 + 1;
            total = saturating_add(total, from_bits(table[at]));
            table[at] = to_bits(total);
        }
    }
}

// The points of the running total between two dates: the rows where they fit. The total starts at the table's first date.
pub fn write_totals(base: u64, from: u64, to: u64, table: &mut [u64], out: &mut [u64]) -> Reply
    requires { Reaches base table.old from to }
    ensures { Puts (map point_row (keep (is_between from to) (running (pos 0) (points_in base table.old base to)))) out.old result out.new }
{
    run_up(base, base, to, table);
    write_points(base, from, to, table, out)
}
