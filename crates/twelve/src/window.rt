// The twelve-month sums, one after the other: a window over the months that takes one in and drops one.
ghost use Rattle.std.specs.Prelude.{map, true, ◌≡◌, ◌+◌, ◌≤◌, ◌<◌, length};
ghost use Rattle.months.specs.Months.{january2000};
ghost use Rattle.months.specs.Table.{first_days};
ghost use Rattle.money.specs.Exact.{value_of};
ghost use Rattle.model.specs.TwelveMonths.{twelve_sum, months, are_words};
ghost use Rattle.twelve.specs.Parts.{HasReach, monthly_in, IsWithin};
ghost use Rattle.twelve.specs.Listed.{AreListed, listed_from, month_before, StartsAt};

use crate::Reach;
use crate::sums::sum_month;
use money::exact::{Exact, add, is_word, narrowed, subtract};

// The window moved on to a month, from the twelve months before it: nothing is in a month before `first`.
fn slide(
    days: &[u16; 1200],
    reach: Reach,
    table: &[u64],
    first: usize,
    month: usize,
    window: Exact,
) -> Exact
    requires days_value { days.now ≡ first_days }
    requires has_reach { HasReach table.now reach × StartsAt (monthly_in table.now reach) first }
    requires first_le_month { (first ≤ month) × (month < 1200) }
    requires window_value { (value_of window ≡ twelve_sum (monthly_in table.now reach) (month_before month)) × IsWithin (month + month) (value_of window) }
    ensures sum { value_of result ≡ twelve_sum (monthly_in table.now reach) (january2000 + month) }
    ensures small { IsWithin (month + month + 2) (value_of result) }
{
    let wider = add(window, sum_month(days, reach, table, month));
    if month < first + 12 {
        return wider;
    }
    subtract(wider, sum_month(days, reach, table, month - 12))
}

// The sums of so many months from `first` on. Whether each of them is a number of 64 bits.
pub fn twelve_sums(
    days: &[u16; 1200],
    reach: Reach,
    table: &[u64],
    first: usize,
    sums: &mut [i64],
) -> bool
    requires days_value { days.now ≡ first_days }
    requires has_reach { HasReach table.now reach × AreListed (monthly_in table.now reach) (listed_from first (length sums.old)) }
    ensures words { result ≡ are_words (monthly_in table.now reach) }
    ensures filled { result ≡ true → sums.new ≡ map (twelve_sum (monthly_in table.now reach)) (months (monthly_in table.now reach)) }
{
    let mut window = Exact { high: 0, low: 0 };
    for k in 0..sums.len() {
        window = slide(days, reach, table, first, first + k, window);
        if !is_word(window) {
            return false;
        }
        sums[k] = narrowed(window);
    }
    true
}
