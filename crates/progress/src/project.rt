// Earned value of the project: the leaves' own figures, added up.
ghost use Rattle.std.specs.Prelude.{◌*◌, ◌≤◌, ◌≡◌, length};
ghost use Rattle.format.specs.Verdict.{content};
ghost use Rattle.model.specs.Earned.{project_earned};
ghost use Rattle.answers.specs.Rows.{project_earned_rows};
ghost use Rattle.answers.specs.Calls.{Puts};
ghost use Rattle.answers.specs.Opened.{IsOpened};

use crate::own::own_values;
use activities::schedule::{FEW, SCHEDULE_WIDTH, parent_marks};
use answers::open::Opened;
use answers::{EARNED_WIDTH, Reply, TOO_SHORT};
use model::Earned;
use tree::table::VALUE_WIDTH;
use value::{put_earned, sums};

// From tables to work in.
fn add_leaves(
    book: &[u8],
    opened: Opened,
    date: u64,
    schedule: &mut [u64],
    own: &mut [i64],
) -> Earned
    requires opened { IsOpened book.now opened }
    requires schedule_len { (length schedule.old ≡ opened.plan.activities.count * 13) × (length own.old ≡ opened.plan.activities.count * 5) }
    ensures { result ≡ project_earned (content book.now) date }
{
    own_values(book, opened, date, schedule, own);
    let marks = parent_marks(schedule);
    sums(&marks, own)
}

// The same, with tables of its own.
#[inline(never)]
fn sized_earned<const SCHEDULE: usize, const OWN: usize>(
    book: &[u8],
    opened: Opened,
    date: u64,
) -> Earned
    requires opened { IsOpened book.now opened }
    requires room { (opened.plan.activities.count * 13 ≤ SCHEDULE) × (opened.plan.activities.count * 5 ≤ OWN) }
    requires most { (SCHEDULE ≤ 6500) × (OWN ≤ 2500) }
    ensures { result ≡ project_earned (content book.now) date }
{
    let mut schedule = [0u64; SCHEDULE];
    let mut own = [0i64; OWN];
    let count = opened.plan.activities.count as usize;
    add_leaves(
        book,
        opened,
        date,
        &mut schedule[..count * SCHEDULE_WIDTH],
        &mut own[..count * VALUE_WIDTH],
    )
}

// The figures of the project at a date: small tables for few activities.
pub fn project_earned(book: &[u8], opened: Opened, date: u64) -> Earned
    requires { IsOpened book.now opened }
    ensures { result ≡ project_earned (content book.now) date }
{
    let count = opened.plan.activities.count as usize;
    if count == 0 {
        return Earned {
            budget: 0,
            planned: 0,
            earned: 0,
            actual: 0,
            remaining: 0,
        };
    }
    if count <= FEW {
        return sized_earned::<416, 160>(book, opened, date);
    }
    sized_earned::<6500, 2500>(book, opened, date)
}

// One row, where it fits.
pub fn project_earned_of(book: &[u8], opened: Opened, date: u64, out: &mut [u64]) -> Reply
    requires { IsOpened book.now opened }
    ensures { Puts (project_earned_rows date (content book.now)) out.old result out.new }
{
    if out.len() < EARNED_WIDTH {
        return Err(TOO_SHORT);
    }
    put_earned(project_earned(book, opened, date), 0, out);
    Ok(1)
}
