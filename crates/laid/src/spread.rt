// An amount spread over the listed days of a span.
ghost use Rattle.model.specs.Amounts.{spread_over};
ghost use Rattle.laid.specs.Laid.{Laid};
ghost use Rattle.laid.specs.Listed.{listed_in, IsSpan};

use crate::days::Span;
use crate::deal::{deal_of, lay_days};
use crate::table::lay;

// Over its working dates, or on its first date where none works.
pub fn lay_spread(amount: i64, days: &[u8], span: Span, table: &mut [u64])
    requires { IsSpan days.now span }
    ensures { Laid span.base (spread_over amount (listed_in days.now span)) table.old table.new }
{
    if span.working == 0 {
        lay(span.first, amount, span.base, table);
        return;
    }
    let deal = deal_of(amount, span.working);
    lay_days(days, span, span.first, span.last, 0, deal, table);
}
