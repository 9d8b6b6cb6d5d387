// The lines, from the table of accounts, and their rows.
ghost use Rattle.std.specs.Prelude.{◌≡◌, ◌+◌, ◌*◌, ◌≤◌, ◌<◌, length};
ghost use mathlib.Core.List.{flat_map};
ghost use Rattle.std.proofs.lemmas.List.Edits.{sets};
ghost use Rattle.rows.specs.Rows.{optional};
ghost use Rattle.answers.specs.Rows.{budget_row};
ghost use Rattle.ledger.specs.Lines.{line_of, line_in, activity_line, lines_in};

use crate::accounts::{DISTRIBUTED, ORIGINAL, PENDING, PLANNED, account_number, current, figure};
use money::sums::saturating_add;
use money::words::to_bits;
use rows::put_row;
use tree::table::COST_WIDTH;
use tree::walk_up;

// A budget line. The depth has the steps that the walk from the activity made.
#[derive(Clone, Copy)]
pub struct Line {
    pub activity: Option<u64>,
    pub depth: u64,
    pub original: i64,
    pub current: i64,
    pub proposed: i64,
    pub distributed: i64,
    pub planned: i64,
    pub scheduled: i64,
}

// The line of an account.
fn line_at(activity: Option<u64>, depth: u64, scheduled: i64, accounts: &[i64; 3006]) -> Line
    ensures { line_of result ≡ line_in accounts.now activity depth scheduled }
{
    let k = account_number(activity);
    let current = current(accounts, k);
    let pending = figure(accounts, k, PENDING);
    Line {
        activity,
        depth,
        original: figure(accounts, k, ORIGINAL),
        current,
        proposed: saturating_add(current, pending),
        distributed: figure(accounts, k, DISTRIBUTED),
        planned: figure(accounts, k, PLANNED),
        scheduled,
    }
}

// The line of an activity: its depth is 1 and the steps that its walk makes, at most as many as there are activities.
fn line_of(i: usize, parents: &[u64], costs: &[i64], accounts: &[i64; 3006]) -> Line
    requires { (i < length parents.now) × (length parents.now ≤ 500) × (length costs.now ≡ length parents.now * 3) }
    ensures { line_of result ≡ activity_line accounts.now parents.now costs.now i }
{
    let steps = walk_up(parents, i, parents.len() as u64);
    let scheduled = costs[i * COST_WIDTH];
    line_at(Some(i as u64), 1 + steps, scheduled, accounts)
}

// A number that may be absent: 0 and 0, or 1 and it.
fn optional_pair(number: Option<u64>) -> [u64; 2]
    ensures { result ≡ optional number }
{
    match number {
        None => [0, 0],
        Some(n) => [1, n],
    }
}

// The ten numbers of a line.
fn row_of(line: Line) -> [u64; 10]
    ensures { result ≡ budget_row (line_of line) }
{
    let activity = line.activity;
    let pair = optional_pair(activity);
    [
        pair[0],
        pair[1],
        line.depth,
        to_bits(line.original),
        to_bits(line.current),
        to_bits(line.proposed),
        to_bits(line.distributed),
        to_bits(line.planned),
        1,
        to_bits(line.scheduled),
    ]
}

// Puts the row of a line from `at` on.
fn put_line(line: Line, at: usize, out: &mut [u64])
    requires { at + 10 ≤ length out.old }
    ensures { out.new ≡ sets out.old at (budget_row (line_of line)) }
{
    let row = row_of(line);
    put_row(&row, at, out);
}

// The project's line, before all others. `whole`: what is scheduled of the project.
pub fn put_project(whole: i64, accounts: &[i64; 3006], out: &mut [u64])
    requires { 10 ≤ length out.old }
    ensures { out.new ≡ sets out.old 0 (budget_row (line_in accounts.now None 0 whole)) }
{
    let line = line_at(None, 0, whole, accounts);
    put_line(line, 0, out);
}

// The project's line, then one for each activity that is marked. The costs are three of each activity, the planned one first.
pub fn put_lines(
    whole: i64,
    parents: &[u64],
    costs: &[i64],
    marks: &[u64; 501],
    accounts: &[i64; 3006],
    out: &mut [u64],
)
    requires parents_len_bound { (length parents.now ≤ 500) × (length costs.now ≡ length parents.now * 3) }
    requires out_len { length out.old ≡ length (lines_in accounts.now parents.now costs.now marks.now whole) * 10 }
    ensures { out.new ≡ flat_map budget_row (lines_in accounts.now parents.now costs.now marks.now whole) }
{
    put_project(whole, accounts, out);
    let mut at = 10;
    for i in 0..parents.len() {
        if marks[i] != 0 {
            let line = line_of(i, parents, costs, accounts);
            put_line(line, at, out);
            at += 10;
        }
    }
}
