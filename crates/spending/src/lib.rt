// The spending: what is charged to the budgets, summed by date, by month or by twelve months.
#![tactic(auto)]

pub mod asked;
pub mod budgets;
pub mod chains;
pub mod charged;
pub mod dated;
pub mod expenses;
pub mod units;

ghost use Rattle.std.specs.Prelude.{◌≡◌, ◌*◌, ◌≤◌, length};
ghost use Rattle.format.specs.Verdict.{content};
ghost use Rattle.model.specs.Costs.{spending_between};
ghost use Rattle.activities.specs.Schedule.{schedule_of};
ghost use Rattle.answers.specs.Calls.{sums_asked, Puts, PutsIf};
ghost use Rattle.answers.specs.Opened.{IsOpened};
ghost use Rattle.answers.specs.Rows.{spending_rows, spending_by_month_rows, twelve_months_rows};
ghost use Rattle.spending.specs.Grained.{Writes};

use crate::asked::{Asked, Grain, frame_of};
use crate::budgets::{are_few, few_rows, many_rows};
use activities::schedule::{DATES, FEW, SCHEDULE_WIDTH, fill_schedule};
use answers::Reply;
use answers::open::Opened;
use spans::Stretch;
use spans::stretches::stretch_of;

// The rows between two dates, from the schedule.
fn rows_by(
    book: &[u8],
    opened: Opened,
    grain: Grain,
    between: Stretch,
    schedule: &[u64],
    out: &mut [u64],
) -> Reply
    requires opened { IsOpened book.now opened }
    requires schedule_value { schedule.now ≡ schedule_of (content book.now) }
    ensures { Writes grain (spending_between (content book.now) between.from between.to) out.old result out.new }
{
    let known = stretch_of(
        schedule,
        opened.plan.activities.count as usize,
        SCHEDULE_WIDTH,
        DATES,
    );
    let frame = frame_of(known, opened.plan.assignments.count);
    let asked = Asked {
        opened,
        grain,
        known,
        frame,
        from: between.from.max(known.from),
        to: between.to.min(known.to),
    };
    if asked.to < asked.from {
        return Ok(0);
    }
    let charges = opened.plan.assignments.count + opened.plan.expenses.count;
    if are_few(charges, opened.plan.resources.count) {
        return few_rows(book, asked, schedule, out);
    }
    many_rows(book, asked, schedule, out)
}

// The same, with a slice for the schedule.
fn scheduled_rows(
    book: &[u8],
    opened: Opened,
    grain: Grain,
    between: Stretch,
    schedule: &mut [u64],
    out: &mut [u64],
) -> Reply
    requires opened { IsOpened book.now opened }
    requires schedule_len { length schedule.old ≡ opened.plan.activities.count * 13 }
    ensures { Writes grain (spending_between (content book.now) between.from between.to) out.old result out.new }
{
    let date = opened.date;
    fill_schedule(book, date, opened.plan, schedule);
    rows_by(book, opened, grain, between, schedule, out)
}

// The same, with an array for the schedule.
#[inline(never)]
fn sized_rows<const SCHEDULE: usize>(
    book: &[u8],
    opened: Opened,
    grain: Grain,
    between: Stretch,
    out: &mut [u64],
) -> Reply
    requires opened { IsOpened book.now opened }
    requires room { opened.plan.activities.count * 13 ≤ SCHEDULE }
    requires most { SCHEDULE ≤ 6500 }
    ensures { Writes grain (spending_between (content book.now) between.from between.to) out.old result out.new }
{
    let mut schedule = [0u64; SCHEDULE];
    let n = opened.plan.activities.count as usize * SCHEDULE_WIDTH;
    scheduled_rows(book, opened, grain, between, &mut schedule[..n], out)
}

// The rows between two dates; none without activities.
fn rows_of(book: &[u8], opened: Opened, grain: Grain, between: Stretch, out: &mut [u64]) -> Reply
    requires { IsOpened book.now opened }
    ensures { Writes grain (spending_between (content book.now) between.from between.to) out.old result out.new }
{
    if opened.plan.activities.count == 0 {
        return Ok(0);
    }
    if opened.plan.activities.count <= FEW as u64 {
        return sized_rows::<416>(book, opened, grain, between, out);
    }
    sized_rows::<6500>(book, opened, grain, between, out)
}

// The points of the spending between two dates, both included.
pub fn spending_of(book: &[u8], opened: Opened, from: u64, to: u64, out: &mut [u64]) -> Reply
    requires { IsOpened book.now opened }
    ensures { Puts (spending_rows from to (content book.now)) out.old result out.new }
{
    rows_of(book, opened, Grain::Day, Stretch { from, to }, out)
}

// All of it month by month, each from its first day.
pub fn spending_by_month_of(book: &[u8], opened: Opened, out: &mut [u64]) -> Reply
    requires { IsOpened book.now opened }
    ensures { Puts (spending_by_month_rows (content book.now)) out.old result out.new }
{
    let all = Stretch {
        from: 10957,
        to: 47481,
    };
    rows_of(book, opened, Grain::Month, all, out)
}

// All of it by twelve months: for each month from the first to the last that has a point, what falls in it and in the eleven before it.
pub fn twelve_months_of(book: &[u8], opened: Opened, out: &mut [u64]) -> Reply
    requires { IsOpened book.now opened }
    ensures { PutsIf (sums_asked.holds (content book.now)) sums_asked.reason (twelve_months_rows (content book.now)) out.old result out.new }
{
    let all = Stretch {
        from: 10957,
        to: 47481,
    };
    rows_of(book, opened, Grain::TwelveMonths, all, out)
}
