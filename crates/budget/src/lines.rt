// The lines of a book with activities.
ghost use Rattle.std.specs.Prelude.{◌≡◌, map, ◌*◌, ◌≤◌, pos, length, replicate};
ghost use Rattle.format.specs.Verdict.{content};
ghost use Rattle.model.specs.Budgets.{budget_lines};
ghost use Rattle.rows.specs.Rows.{numbers};
ghost use Rattle.spans.specs.Columns.{parent_number};
ghost use Rattle.activities.specs.Schedule.{schedule_of};
ghost use Rattle.answers.specs.Opened.{IsOpened};
ghost use Rattle.answers.specs.Rows.{budget_rows};
ghost use Rattle.answers.specs.Calls.{Puts};
ghost use Rattle.ledger.specs.Arguments.{IsHanded};

use crate::scheduled::scheduled;
use activities::schedule::{FEW, SCHEDULE_WIDTH, copy_parents, fill_schedule, parent_marks};
use answers::open::Opened;
use answers::{Reply, TOO_SHORT};
use ledger::lines::put_lines;
use ledger::marks::count_marked;
use ledger::{hand_up, take_ledger};
use tree::table::COST_WIDTH;

// All of them. `costs` is for what is scheduled.
fn put_in(
    book: &[u8],
    opened: Opened,
    schedule: &[u64],
    parents: &[u64],
    accounts: &[i64; 3006],
    marks: &[u64; 501],
    costs: &mut [i64],
    out: &mut [u64],
)
    requires opened { IsOpened book.now opened }
    requires schedule_value { (schedule.now ≡ schedule_of (content book.now)) × (parents.now ≡ map parent_number (content book.now).activities) }
    requires handed { IsHanded (content book.now) accounts.now marks.now }
    requires costs_len { length costs.old ≡ opened.plan.activities.count * 3 }
    requires out_len { length out.old ≡ length (budget_lines (content book.now)) * 10 }
    ensures { out.new ≡ numbers (budget_rows (content book.now)) }
{
    let whole = scheduled(book, opened, schedule, costs);
    put_lines(whole, parents, costs, marks, accounts, out);
}

// What is read of the activities: their schedule, and their parents from it.
fn read_activities(book: &[u8], opened: Opened, schedule: &mut [u64], parents: &mut [u64])
    requires opened { IsOpened book.now opened }
    requires schedule_len { (length schedule.old ≡ opened.plan.activities.count * 13) × (length parents.old ≡ opened.plan.activities.count) }
    ensures read { schedule.new ≡ schedule_of (content book.now) }
    ensures above { parents.new ≡ map parent_number (content book.now).activities }
{
    let date = opened.date;
    fill_schedule(book, date, opened.plan, schedule);
    copy_parents(schedule, parents);
}

// The accounts of the book, with the current budgets handed up the tree. How many lines there are.
fn hand_lines(
    book: &[u8],
    opened: Opened,
    schedule: &[u64],
    parents: &[u64],
    accounts: &mut [i64; 3006],
    marks: &mut [u64; 501],
) -> u64
    requires opened { IsOpened book.now opened }
    requires schedule_value { (schedule.now ≡ schedule_of (content book.now)) × (parents.now ≡ map parent_number (content book.now).activities) }
    requires accounts_value { (accounts.old ≡ replicate 3006 (pos 0)) × (marks.old ≡ replicate 501 0) }
    ensures most { result ≤ 501 }
    ensures handed { IsHanded (content book.now) accounts.new marks.new }
    ensures count { result ≡ length (budget_lines (content book.now)) }
{
    take_ledger(
        book,
        opened.plan.activities.count,
        opened.ledger,
        accounts,
        marks,
    );
    let leaves = parent_marks(schedule);
    hand_up(parents, &leaves, accounts, marks);
    count_marked(marks, parents.len()) + 1
}

// `schedule`, `parents` and `costs` are for what is known of the activities.
fn lines_in(
    book: &[u8],
    opened: Opened,
    schedule: &mut [u64],
    parents: &mut [u64],
    costs: &mut [i64],
    out: &mut [u64],
) -> Reply
    requires opened { IsOpened book.now opened }
    requires schedule_len { (length schedule.old ≡ opened.plan.activities.count * 13) × (length parents.old ≡ opened.plan.activities.count) × (length costs.old ≡ opened.plan.activities.count * 3) }
    ensures { Puts (budget_rows (content book.now)) out.old result out.new }
{
    let mut accounts = [0i64; 3006];
    let mut marks = [0u64; 501];
    read_activities(book, opened, schedule, parents);
    let count = hand_lines(book, opened, schedule, parents, &mut accounts, &mut marks);
    let n = count as usize * 10;
    if out.len() < n {
        return Err(TOO_SHORT);
    }
    put_in(
        book,
        opened,
        schedule,
        parents,
        &accounts,
        &marks,
        costs,
        &mut out[..n],
    );
    Ok(count)
}

// The same, with arrays of its own.
#[inline(never)]
fn sized_lines<const SCHEDULE: usize, const PARENTS: usize, const COSTS: usize>(
    book: &[u8],
    opened: Opened,
    out: &mut [u64],
) -> Reply
    requires opened { IsOpened book.now opened }
    requires room { (opened.plan.activities.count * 13 ≤ SCHEDULE) × (opened.plan.activities.count ≤ PARENTS) × (opened.plan.activities.count * 3 ≤ COSTS) }
    requires most { (SCHEDULE ≤ 6500) × (PARENTS ≤ 500) × (COSTS ≤ 1500) }
    ensures { Puts (budget_rows (content book.now)) out.old result out.new }
{
    let mut schedule = [0u64; SCHEDULE];
    let mut parents = [0u64; PARENTS];
    let mut costs = [0i64; COSTS];
    let n = opened.plan.activities.count as usize;
    lines_in(
        book,
        opened,
        &mut schedule[..n * SCHEDULE_WIDTH],
        &mut parents[..n],
        &mut costs[..n * COST_WIDTH],
        out,
    )
}

// The same, with room for few activities or many.
pub fn lines_of(book: &[u8], opened: Opened, out: &mut [u64]) -> Reply
    requires { IsOpened book.now opened }
    ensures { Puts (budget_rows (content book.now)) out.old result out.new }
{
    if opened.plan.activities.count <= FEW as u64 {
        return sized_lines::<416, 32, 96>(book, opened, out);
    }
    sized_lines::<6500, 500, 1500>(book, opened, out)
}
