// One walk over the dates of a span, by a row of the table of days, and what is planned of an amount by what it counts.
ghost use Rattle.std.specs.Prelude.{◌≡◌};
ghost use Rattle.laid.specs.Listed.{Covers};
ghost use Rattle.planned.specs.Values.{planned_by};
ghost use Rattle.planned.specs.Walked.{walked_in, both_of, or_first, Few};

use laid::days::{Tested, test_dates};
use model::DayWalk;
use money::shares::cumulative;

// One walk of what was found up to `date` and what was found behind it. Where no date works the first is listed alone, though the span may have no date.
fn joined(date: u64, first: u64, early: Tested, late: Tested) -> DayWalk
    requires { Few early × Few late }
    ensures { result ≡ or_first date first (both_of early late) }
{
    let listed = early.working + late.working;
    let tested = early.tested + late.tested;
    if listed > 0 {
        let up_to = early.working;
        return DayWalk {
            listed,
            up_to,
            tested,
        };
    }
    if first <= date {
        return DayWalk {
            listed: 1,
            up_to: 1,
            tested,
        };
    }
    DayWalk {
        listed: 1,
        up_to: 0,
        tested,
    }
}

// The listed days of a span, those of them up to `date`, and the dates tested, each once: those up to `date`, then on from the one behind them.
pub fn walk_days(days: &[u8], row: usize, base: u64, date: u64, first: u64, last: u64) -> DayWalk
    requires { Covers row base days.now first last }
    ensures { result ≡ walked_in row base days.now date first last }
{
    let until = last.min(date);
    let early = test_dates(days, row, base, first, until);
    let late = test_dates(days, row, base, first + early.tested, last);
    joined(date, first, early, late)
}

// What is planned of an amount over a span: what its days up to the date get of it.
pub fn planned_by(
    date: u64,
    amount: i64,
    days: &[u8],
    row: usize,
    base: u64,
    first: u64,
    last: u64,
) -> i64
    requires { Covers row base days.now first last }
    ensures { result ≡ planned_by row base days.now date first last amount }
{
    let walked = walk_days(days, row, base, date, first, last);
    cumulative(amount, walked.listed, walked.up_to)
}
