// The budget lines of a book and its funding, as rows.
#![tactic(auto)]

ghost use Rattle.std.specs.Prelude.{◌≡◌};
ghost use Rattle.format.specs.Verdict.{content};
ghost use Rattle.answers.specs.Opened.{IsOpened};
ghost use Rattle.answers.specs.Rows.{budget_rows, funding_rows};
ghost use Rattle.answers.specs.Calls.{Puts};

use crate::lines::lines_of;
use crate::project::project_current;
use answers::open::Opened;
use answers::{Reply, TOO_SHORT};
use ledger::amounts::sum_amounts;
use ledger::lines::put_project;
use ledger::take_ledger;
use money::sums::saturating_sub;
use money::words::to_bits;

mod lines;
mod project;
mod scheduled;

// A book without activities has the project's line alone.
fn put_alone(book: &[u8], opened: Opened, out: &mut [u64]) -> Reply
    requires opened { IsOpened book.now opened }
    requires count_value { opened.plan.activities.count ≡ 0 }
    ensures { Puts (budget_rows (content book.now)) out.old result out.new }
{
    if out.len() < 10 {
        return Err(TOO_SHORT);
    }
    let mut accounts = [0i64; 3006];
    let mut marks = [0u64; 501];
    let activities = opened.plan.activities.count;
    take_ledger(book, activities, opened.ledger, &mut accounts, &mut marks);
    put_project(0, &accounts, &mut out[..10]);
    Ok(1)
}

// A row for each line of the budget, where they fit: the budgets and the log are read once.
pub fn budget_of(book: &[u8], opened: Opened, out: &mut [u64]) -> Reply
    requires { IsOpened book.now opened }
    ensures { Puts (budget_rows (content book.now)) out.old result out.new }
{
    if opened.plan.activities.count == 0 {
        return put_alone(book, opened, out);
    }
    lines_of(book, opened, out)
}

// One row, where it fits: what the sources give, and what of the project's current budget they do not cover.
pub fn funding_of(book: &[u8], opened: Opened, out: &mut [u64]) -> Reply
    requires { IsOpened book.now opened }
    ensures { Puts (funding_rows (content book.now)) out.old result out.new }
{
    if out.len() < 2 {
        return Err(TOO_SHORT);
    }
    let date = opened.date;
    let funded = sum_amounts(book, opened.ledger.funds);
    let current = project_current(book, date, opened.plan, opened.ledger);
    out[0] = to_bits(funded);
    out[1] = to_bits(saturating_sub(current, funded));
    Ok(1)
}
