// The months from the first to the last that has a point in a table by date.
ghost use Rattle.std.specs.Prelude.{◌≡◌, ℕ, ◌≤◌, false, MatchOption};
ghost use Rattle.bydate.specs.Pointed.{is_marked};
ghost use Rattle.months.specs.Table.{first_days};
ghost use Rattle.twelve.specs.Parts.{HasReach, monthly_in};
ghost use Rattle.twelve.specs.Listed.{IsFirst, IsLast, IsPoint, AreListed};

use crate::Reach;
use bydate::points::is_marked;
use months::month_at;

// So many months, from one on.
#[derive(Clone, Copy)]
pub struct Listed {
    pub first: usize,
    pub count: usize,
}

// The first date that has a point.
fn first_point(reach: Reach, table: &[u64]) -> Option<u64>
    requires { HasReach table.now reach }
    ensures { MatchOption result ((d : ℕ) → reach.from ≤ d → d ≤ reach.to → is_marked reach.base table.now d ≡ false) (λ r. IsFirst table.now reach r × (r ≤ reach.to)) }
{
    for date in reach.from..reach.to + 1 {
        if is_marked(table, reach.base, date) {
            return Some(date);
        }
    }
    None
}

// The last date that has one, not before a date that has.
fn last_point(reach: Reach, table: &[u64], first: u64) -> u64
    requires has_reach { HasReach table.now reach }
    requires point { IsPoint table.now reach first }
    ensures { IsLast table.now reach result }
{
    for date in (first + 1..reach.to + 1).rev() {
        if is_marked(table, reach.base, date) {
            return date;
        }
    }
    first
}

// The months from the first to the last listed.
pub fn listed_months(days: &[u16; 1200], reach: Reach, table: &[u64]) -> Listed
    requires days_value { days.now ≡ first_days }
    requires has_reach { HasReach table.now reach }
    ensures { AreListed (monthly_in table.now reach) result }
{
    let Some(first) = first_point(reach, table) else {
        return Listed { first: 0, count: 0 };
    };
    let last = last_point(reach, table, first);
    let month = month_at(days, first);
    Listed {
        first: month,
        count: month_at(days, last) + 1 - month,
    }
}
