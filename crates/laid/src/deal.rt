// Amounts laid on the working dates of a span, the days counted from a first one on.
ghost use Rattle.std.specs.Prelude.{◌≡◌, ◌+◌, ◌≤◌, ◌<◌, length};
ghost use Rattle.laid.specs.Laid.{Laid};
ghost use Rattle.laid.specs.Dealt.{dealt, of_deal, deal_of};
ghost use Rattle.laid.specs.Listed.{worked_in, Covers};

use crate::days::{Span, is_working};
use crate::table::lay;
use money::shares::share;

// Two amounts: `early` on each day before day `left`, `late` from it on.
#[derive(Clone, Copy)]
pub struct Deal {
    pub left: u64,
    pub early: i64,
    pub late: i64,
}

// The shares of an amount over n days.
pub fn deal_of(amount: i64, n: u64) -> Deal
    requires { 0 < n }
    ensures { result ≡ deal_of amount n }
{
    let left = amount.unsigned_abs() % n;
    let early = share(amount, n, 0);
    let late = share(amount, n, left);
    Deal { left, early, late }
}

// The amount of day k.
fn amount_of(deal: Deal, k: u64) -> i64
    ensures { result ≡ of_deal deal k }
{
    if k < deal.left { deal.early } else { deal.late }
}

// Lays the amounts on the working dates of a span's row between two; the first of them is day k. The number of the day after the last.
pub fn lay_days(
    days: &[u8],
    span: Span,
    first: u64,
    last: u64,
    k: u64,
    deal: Deal,
    table: &mut [u64],
) -> u64
    requires covers { Covers span.row span.base days.now first last }
    requires k_le_first { k ≤ first }
    ensures value { result ≡ k + length (worked_in days.now span first last) }
    ensures laid { Laid span.base (dealt (λ d. of_deal deal) k (worked_in days.now span first last)) table.old table.new }
{
    let mut next = k;
    for date in first..last + 1 {
        if is_working(days, span.row, span.base, date) {
            let amount = amount_of(deal, next);
            lay(date, amount, span.base, table);
            next += 1;
        }
    }
    next
}
