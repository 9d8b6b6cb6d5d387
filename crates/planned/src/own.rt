// What is planned by a date of each activity's budget, by a table of the days of the calendars: `width` dates a row, from `base` on.
ghost use Rattle.std.specs.Prelude.{◌≡◌, map, ◌<◌, length};
ghost use Rattle.lists.specs.Lists.{span};
ghost use Rattle.tree.specs.Figures.{unmarked_sum};
ghost use Rattle.planned.specs.Values.{planned_at};
ghost use Rattle.planned.specs.Tabled.{AreTabled};

use crate::walk::planned_by;
use baseline::listed::LISTED_WIDTH;
use money::sums::saturating_add;

// Of one activity.
pub fn planned_at(
    date: u64,
    base: u64,
    width: u64,
    days: &[u8],
    listed: &[u64],
    budgets: &[i64],
    i: usize,
) -> i64
    requires are_tabled { AreTabled base width (length budgets.now) days.now listed.now }
    requires i_in_bounds { i < length budgets.now }
    ensures { result ≡ planned_at base width days.now date listed.now budgets.now i }
{
    let at = i * LISTED_WIDTH;
    let row = (listed[at + 2] * width) as usize;
    let amount = budgets[i];
    planned_by(date, amount, days, row, base, listed[at], listed[at + 1])
}

// Of the leaves, those with mark 0, added up in index order.
pub fn leaves_planned(
    date: u64,
    base: u64,
    width: u64,
    days: &[u8],
    listed: &[u64],
    budgets: &[i64],
    marks: &[u64; 500],
) -> i64
    requires { AreTabled base width (length budgets.now) days.now listed.now }
    ensures { result ≡ unmarked_sum marks.now (map (planned_at base width days.now date listed.now budgets.now) (span 0 (length budgets.now))) }
{
    let mut sum: i64 = 0;
    for i in 0..budgets.len() {
        if marks[i] == 0 {
            let value = planned_at(date, base, width, days, listed, budgets, i);
            sum = saturating_add(sum, value);
        }
    }
    sum
}
