// Amounts laid on the listed days of a span, as they accrue.
ghost use Rattle.model.specs.Costs.{accrued};
ghost use Rattle.laid.specs.Laid.{Laid};
ghost use Rattle.laid.specs.Listed.{listed_in, IsSpan};

use format::Accrual;
use laid::days::{Span, first_listed, last_listed};
use laid::spread::lay_spread;
use laid::table::lay;

// On the first listed day, on the last, or spread.
pub fn lay_expense(amount: i64, accrual: Accrual, days: &[u8], span: Span, table: &mut [u64])
    requires { IsSpan days.now span }
    ensures { Laid span.base (accrued amount (listed_in days.now span) accrual) table.old table.new }
{
    match accrual {
        Accrual::Start => {
            let date = first_listed(days, span);
            lay(date, amount, span.base, table);
        }
        Accrual::End => {
            let date = last_listed(days, span);
            lay(date, amount, span.base, table);
        }
        Accrual::Uniform => lay_spread(amount, days, span, table),
    }
}
