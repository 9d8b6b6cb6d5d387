// What is earned and spent to date, by period: of each period three figures, row after row.
#![tactic(auto)]

ghost use Rattle.std.specs.Prelude.{◌+◌, ◌*◌, ◌≤◌, ◌<◌, ◌≡◌, length};
ghost use Rattle.records.specs.Decoded.{period_record_of};
ghost use Rattle.calendar.specs.Changes.{Changed, of_row};
ghost use Rattle.todate.specs.Figures.{IsEntry, closing, entered};

use money::sums::saturating_add;
use records::periods::PeriodRecord;

// The figures of a period, and the places among them: 1 where a record of it is stored, the earned value to date, the actual cost to date.
pub const WIDTH: usize = 3;

pub const EARNED: usize = 1;

pub const ACTUAL: usize = 2;

// What a record adds to the figures: of its period, earned value and actual cost.
#[derive(Clone, Copy)]
pub struct Entry {
    pub period: u64,
    pub earned: i64,
    pub actual: i64,
}

// The actual cost in a record is that of every kind together.
pub fn entry_of(x: PeriodRecord) -> Entry
    ensures { IsEntry (period_record_of x) result }
{
    let work = saturating_add(x.labor, x.nonlabor);
    let goods = saturating_add(work, x.material);
    let actual = saturating_add(goods, x.expense);
    let earned = x.earned;
    Entry {
        period: x.period,
        earned,
        actual,
    }
}

// Adds an entry, whose period closes at `close`, to the figures of period p, which closes at `finish`: where it closes no later.
fn add_to(entry: Entry, close: u64, p: usize, finish: u64, figures: &mut [i64])
    requires { p * 3 + 3 ≤ length figures.old }
    ensures { Changed 3 (of_row p (closing close entry.earned entry.actual finish)) figures.old figures.new }
{
    if close <= finish {
        let at = p * WIDTH;
        let earned = figures[at + EARNED];
        let actual = figures[at + ACTUAL];
        figures[at + EARNED] = saturating_add(earned, entry.earned);
        figures[at + ACTUAL] = saturating_add(actual, entry.actual);
    }
}

// Adds an entry to the figures of all periods that close no earlier than its own, which is marked; `finishes`: when they close.
pub fn add_entry(entry: Entry, finishes: &[u64], figures: &mut [i64])
    requires { (entry.period < length finishes.now) × (length figures.old ≡ length finishes.now * 3) }
    ensures { Changed 3 (entered finishes.now entry.period entry.earned entry.actual) figures.old figures.new }
{
    let period = entry.period as usize;
    let close = finishes[period];
    figures[period * WIDTH] = 1;
    for (p, &finish) in finishes.iter().enumerate() {
        add_to(entry, close, p, finish, figures);
    }
}
