// The leaves' budgets, spread over the listed days of their spans.
ghost use Rattle.std.specs.Prelude.{length};
ghost use Rattle.laid.specs.Laid.{Laid};
ghost use Rattle.planned.specs.Tabled.{AreTabled};
ghost use Rattle.curve.specs.Budgeted.{budgets_laid};

use baseline::listed::LISTED_WIDTH;
use laid::days::span_of;
use laid::spread::lay_spread;

// Leaf after leaf, by a table of spans and the days of the calendars, of `width` dates a row from `base` on. A mark is 0 for a leaf.
pub fn lay_leaves(
    marks: &[u64; 500],
    budgets: &[i64],
    listed: &[u64],
    days: &[u8],
    base: u64,
    width: u64,
    table: &mut [u64],
)
    requires { AreTabled base width (length budgets.now) days.now listed.now }
    ensures { Laid base (budgets_laid base width days.now marks.now listed.now budgets.now) table.old table.new }
{
    for i in 0..budgets.len() {
        if marks[i] != 0 {
            continue;
        }
        let at = i * LISTED_WIDTH;
        let span = span_of(
            days,
            base,
            width,
            listed[at + 2],
            listed[at],
            listed[at + 1],
        );
        let budget = budgets[i];
        lay_spread(budget, days, span, table);
    }
}
