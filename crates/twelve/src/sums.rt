// Exact sums of the points of a table by date: between two dates, and in a month.
ghost use Rattle.std.specs.Prelude.{◌≡◌, ◌+◌, ◌<◌};
ghost use Rattle.months.specs.Months.{january2000};
ghost use Rattle.months.specs.Table.{first_days};
ghost use Rattle.money.specs.Exact.{value_of};
ghost use Rattle.model.specs.TwelveMonths.{month_sum};
ghost use Rattle.bydate.specs.Pointed.{points_in, Reaches};
ghost use Rattle.twelve.specs.Parts.{exact_sum, monthly_in, HasReach, IsWithin};

use crate::Reach;
use bydate::points::is_marked;
use money::exact::{Exact, add, widened};
use months::{first_day, last_day};

// The points between two dates, added up exactly.
fn sum_between(base: u64, first: u64, last: u64, table: &[u64]) -> Exact
    requires { Reaches base table.now first last }
    ensures sum { value_of result ≡ exact_sum (points_in base table.now first last) }
    ensures small { IsWithin 1 (value_of result) }
{
    let mut total = Exact { high: 0, low: 0 };
    for date in first..last + 1 {
        if is_marked(table, base, date) {
            let sum = widened(table[(date - base) as usize * 2 + 1]);
            total = add(total, sum);
        }
    }
    total
}

// Those of month i.
pub fn sum_month(days: &[u16; 1200], reach: Reach, table: &[u64], i: usize) -> Exact
    requires days_value { days.now ≡ first_days }
    requires has_reach { HasReach table.now reach × (i < 1200) }
    ensures sum { value_of result ≡ month_sum (monthly_in table.now reach) (january2000 + i) }
    ensures small { IsWithin 1 (value_of result) }
{
    let first = reach.from.max(first_day(days, i));
    let last = reach.to.min(last_day(days, i));
    sum_between(reach.base, first, last, table)
}
