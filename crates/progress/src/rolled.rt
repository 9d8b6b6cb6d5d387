// Earned value of the activities: each activity's own figures, and those of the activities below it.
ghost use Rattle.std.specs.Prelude.{◌*◌, ◌≤◌, ◌<◌, ◌≡◌, map, length};
ghost use Rattle.format.specs.Verdict.{content};
ghost use Rattle.model.specs.Earned.{earned_at};
ghost use Rattle.spans.specs.Columns.{parent_number};
ghost use Rattle.tree.specs.Tables.{rolled_values};
ghost use Rattle.rows.specs.Rows.{numbers};
ghost use Rattle.answers.specs.Rows.{earned_width, earned_value_rows};
ghost use Rattle.answers.specs.Calls.{Puts};
ghost use Rattle.answers.specs.Opened.{IsOpened};

use crate::own::own_values;
use activities::schedule::{FEW, SCHEDULE_WIDTH, copy_parents};
use answers::open::Opened;
use answers::{EARNED_WIDTH, Reply, TOO_SHORT};
use model::Earned;
use tree::table::{VALUE_WIDTH, roll_rows};
use value::{earned_at, put_values};

// The own figures, then rolled up, from tables to work in.
fn roll_own(
    book: &[u8],
    opened: Opened,
    date: u64,
    schedule: &mut [u64],
    own: &mut [i64],
    parents: &mut [u64],
    out: &mut [i64],
)
    requires opened { IsOpened book.now opened }
    requires schedule_len { (length schedule.old ≡ opened.plan.activities.count * 13) × (length own.old ≡ opened.plan.activities.count * 5) × (length parents.old ≡ opened.plan.activities.count) × (length out.old ≡ opened.plan.activities.count * 5) }
    ensures parents { parents.new ≡ map parent_number (content book.now).activities }
    ensures out { out.new ≡ rolled_values (content book.now) date }
{
    own_values(book, opened, date, schedule, own);
    copy_parents(schedule, parents);
    roll_rows(parents, VALUE_WIDTH, own, out);
}

// The parents and the rolled figures, with tables of its own.
#[inline(never)]
fn tree_sized<const SCHEDULE: usize, const OWN: usize>(
    book: &[u8],
    opened: Opened,
    date: u64,
    parents: &mut [u64],
    out: &mut [i64],
)
    requires opened { IsOpened book.now opened }
    requires room { (opened.plan.activities.count * 13 ≤ SCHEDULE) × (opened.plan.activities.count * 5 ≤ OWN) }
    requires most { (SCHEDULE ≤ 6500) × (OWN ≤ 2500) }
    requires parents_len { (length parents.old ≡ opened.plan.activities.count) × (length out.old ≡ opened.plan.activities.count * 5) }
    ensures parents { parents.new ≡ map parent_number (content book.now).activities }
    ensures out { out.new ≡ rolled_values (content book.now) date }
{
    let mut schedule = [0u64; SCHEDULE];
    let mut own = [0i64; OWN];
    let n = opened.plan.activities.count as usize;
    roll_own(
        book,
        opened,
        date,
        &mut schedule[..n * SCHEDULE_WIDTH],
        &mut own[..n * VALUE_WIDTH],
        parents,
        out,
    );
}

// The same: small tables for few activities.
pub fn roll_tree(book: &[u8], opened: Opened, date: u64, parents: &mut [u64], out: &mut [i64])
    requires opened { IsOpened book.now opened }
    requires parents_len { (length parents.old ≡ opened.plan.activities.count) × (length out.old ≡ opened.plan.activities.count * 5) }
    ensures parents { parents.new ≡ map parent_number (content book.now).activities }
    ensures out { out.new ≡ rolled_values (content book.now) date }
{
    if opened.plan.activities.count <= FEW as u64 {
        tree_sized::<416, 160>(book, opened, date, parents, out);
        return;
    }
    tree_sized::<6500, 2500>(book, opened, date, parents, out);
}

// The rolled figures alone, with a column of parents of its own.
#[inline(never)]
fn values_sized<const PARENTS: usize>(book: &[u8], opened: Opened, date: u64, out: &mut [i64])
    requires opened { IsOpened book.now opened }
    requires room { opened.plan.activities.count ≤ PARENTS }
    requires most { PARENTS ≤ 500 }
    requires out_len { length out.old ≡ opened.plan.activities.count * 5 }
    ensures { out.new ≡ rolled_values (content book.now) date }
{
    let mut parents = [0u64; PARENTS];
    let n = opened.plan.activities.count as usize;
    roll_tree(book, opened, date, &mut parents[..n], out);
}

// The same: a short column for few activities.
fn roll_values(book: &[u8], opened: Opened, date: u64, out: &mut [i64])
    requires opened { IsOpened book.now opened }
    requires out_len { length out.old ≡ opened.plan.activities.count * 5 }
    ensures { out.new ≡ rolled_values (content book.now) date }
{
    if opened.plan.activities.count <= FEW as u64 {
        values_sized::<32>(book, opened, date, out);
        return;
    }
    values_sized::<500>(book, opened, date, out);
}

// The rows, from a table of the rolled figures.
fn fill_rows(book: &[u8], opened: Opened, date: u64, rolled: &mut [i64], out: &mut [u64])
    requires opened { IsOpened book.now opened }
    requires rolled_len { (length rolled.old ≡ opened.plan.activities.count * 5) × (length out.old ≡ opened.plan.activities.count * earned_width) }
    ensures { out.new ≡ numbers (earned_value_rows date (content book.now)) }
{
    roll_values(book, opened, date, rolled);
    put_values(rolled, opened.plan.activities.count as usize, out);
}

// The same, with a table of its own.
#[inline(never)]
fn fill_sized<const ROLLED: usize>(book: &[u8], opened: Opened, date: u64, out: &mut [u64])
    requires opened { IsOpened book.now opened }
    requires room { opened.plan.activities.count * 5 ≤ ROLLED }
    requires most { ROLLED ≤ 2500 }
    requires out_len { length out.old ≡ opened.plan.activities.count * earned_width }
    ensures { out.new ≡ numbers (earned_value_rows date (content book.now)) }
{
    let mut rolled = [0i64; ROLLED];
    let n = opened.plan.activities.count as usize;
    fill_rows(book, opened, date, &mut rolled[..n * VALUE_WIDTH], out);
}

// A row for each activity, where the rows fit.
pub fn earned_value_of(book: &[u8], opened: Opened, date: u64, out: &mut [u64]) -> Reply
    requires { IsOpened book.now opened }
    ensures { Puts (earned_value_rows date (content book.now)) out.old result out.new }
{
    let count = opened.plan.activities.count as usize;
    let n = count * EARNED_WIDTH;
    if out.len() < n {
        return Err(TOO_SHORT);
    }
    if count == 0 {
        return Ok(0);
    }
    if count <= FEW {
        fill_sized::<160>(book, opened, date, &mut out[..n]);
        return Ok(count as u64);
    }
    fill_sized::<2500>(book, opened, date, &mut out[..n]);
    Ok(count as u64)
}

// The figures of an activity, from a table of the rolled figures.
fn figures_at(book: &[u8], opened: Opened, date: u64, activity: u64, rolled: &mut [i64]) -> Earned
    requires opened { IsOpened book.now opened }
    requires activity_lt_count { activity < opened.plan.activities.count }
    requires rolled_len { length rolled.old ≡ opened.plan.activities.count * 5 }
    ensures { result ≡ earned_at (content book.now) date activity }
{
    roll_values(book, opened, date, rolled);
    earned_at(rolled, activity as usize)
}

// The same, with a table of its own.
#[inline(never)]
fn figures_sized<const ROLLED: usize>(
    book: &[u8],
    opened: Opened,
    date: u64,
    activity: u64,
) -> Earned
    requires opened { IsOpened book.now opened }
    requires room { opened.plan.activities.count * 5 ≤ ROLLED }
    requires most { ROLLED ≤ 2500 }
    requires activity_lt_count { activity < opened.plan.activities.count }
    ensures { result ≡ earned_at (content book.now) date activity }
{
    let mut rolled = [0i64; ROLLED];
    let n = opened.plan.activities.count as usize;
    figures_at(book, opened, date, activity, &mut rolled[..n * VALUE_WIDTH])
}

// The figures of an activity at a date: a small table for few activities.
pub fn activity_earned(book: &[u8], opened: Opened, date: u64, activity: u64) -> Earned
    requires opened { IsOpened book.now opened }
    requires activity_lt_count { activity < opened.plan.activities.count }
    ensures { result ≡ earned_at (content book.now) date activity }
{
    if opened.plan.activities.count <= FEW as u64 {
        return figures_sized::<160>(book, opened, date, activity);
    }
    figures_sized::<2500>(book, opened, date, activity)
}
