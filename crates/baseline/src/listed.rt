// The listed spans of the activities with their calendars, and the budgets of the leaves.
ghost use Rattle.std.specs.Prelude.{◌*◌, ◌≤◌, ◌≡◌, false, cond, eqb, length};
ghost use Rattle.format.specs.Book.{Book};
ghost use Rattle.format.specs.InRange.{InRange};
ghost use Rattle.format.specs.Verdict.{content};
ghost use Rattle.money.specs.Words.{of_bits};
ghost use Rattle.tree.specs.Tables.{own_costs};
ghost use Rattle.activities.specs.Schedule.{schedule_of};
ghost use Rattle.answers.specs.Opened.{IsOpened};
ghost use Rattle.baseline.specs.Lines.{lines_table, IsLines};
ghost use Rattle.baseline.specs.Listed.{listed_of, if_leaf, budgets_of};

use crate::lines::{COST, FINISH, LINE_WIDTH, START, lines_of, take_lines};
use activities::schedule::{CALENDAR, DATES, FEW, SCHEDULE_WIDTH, parent_marks};
use answers::open::Opened;
use money::words::from_bits;
use rows::put_row;
use sections::Section;
use tree::table::COST_WIDTH;

// The numbers of an activity: the first date, the last, the calendar.
pub const LISTED_WIDTH: usize = 3;

// What a line says, by its mark, else what the schedule says.
fn lined_or<T: Copy>(mark: u64, lined: T, early: T) -> T
    ensures { result ≡ cond (eqb mark 0) early lined }
{
    if mark == 0 { early } else { lined }
}

// Of a leaf: the cost that the baseline froze, else the planned cost.
fn frozen_or(parent: u64, mark: u64, frozen: u64, cost: i64) -> i64
    ensures { result ≡ if_leaf parent (cond (eqb mark 0) cost (of_bits frozen)) }
{
    if parent == 0 {
        lined_or(mark, from_bits(frozen), cost)
    } else {
        0
    }
}

// The listed spans, from the schedule and the table of the first lines.
fn fill_spans(schedule: &[u64], lines: &[u64], n: usize, out: &mut [u64])
    requires { (length schedule.now ≡ n * 13) × (length lines.now ≡ n * 5) × (length out.old ≡ n * 3) }
    ensures { (book : Book) → schedule.now ≡ schedule_of book → lines.now ≡ lines_table false book → out.new ≡ listed_of book }
{
    for i in 0..n {
        let row = i * SCHEDULE_WIDTH;
        let line = i * LINE_WIDTH;
        let mark = lines[line];
        let span = [
            lined_or(mark, lines[line + START], schedule[row + DATES]),
            lined_or(mark, lines[line + FINISH], schedule[row + DATES + 1]),
            schedule[row + CALENDAR],
        ];
        put_row(&span, i * LISTED_WIDTH, out);
    }
}

// The budgets, from the marks of the parents, the table of the first lines and the own costs.
fn fill_budgets(schedule: &[u64], lines: &[u64], costs: &[i64], out: &mut [i64])
    requires { (length schedule.now ≡ length out.old * 13) × (length lines.now ≡ length out.old * 5) × (length costs.now ≡ length out.old * 3) × (length out.old ≤ 500) }
    ensures { (book : Book) → InRange book → schedule.now ≡ schedule_of book → lines.now ≡ lines_table false book → costs.now ≡ own_costs book → out.new ≡ budgets_of book }
{
    let parents = parent_marks(schedule);
    for i in 0..out.len() {
        let line = i * LINE_WIDTH;
        out[i] = frozen_or(
            parents[i],
            lines[line],
            lines[line + COST],
            costs[i * COST_WIDTH],
        );
    }
}

// With a table of at most N numbers for the lines.
#[inline(never)]
fn list_by<const N: usize>(
    book: &[u8],
    list: Section,
    schedule: &[u64],
    costs: &[i64],
    listed: &mut [u64],
    budgets: &mut [i64],
)
    requires lines { IsLines book.now list (length budgets.old) × InRange (content book.now) × (length budgets.old ≤ 500) }
    requires room { (length budgets.old * 5 ≤ N) × (N ≤ 2500) }
    requires schedule_value { schedule.now ≡ schedule_of (content book.now) }
    requires costs_value { costs.now ≡ own_costs (content book.now) }
    requires listed_len { length listed.old ≡ length budgets.old * 3 }
    ensures listed { listed.new ≡ listed_of (content book.now) }
    ensures budgets { budgets.new ≡ budgets_of (content book.now) }
{
    let n = budgets.len();
    let mut table = [0u64; N];
    let lines = &mut table[..n * LINE_WIDTH];
    take_lines(book, list, n as u64, false, lines);
    fill_spans(schedule, lines, n, listed);
    fill_budgets(schedule, lines, costs, budgets);
}

// From the schedule and the activities' own costs, of which the planned ones stand first. A small table for few activities.
pub fn list_spans(
    book: &[u8],
    opened: Opened,
    schedule: &[u64],
    costs: &[i64],
    listed: &mut [u64],
    budgets: &mut [i64],
)
    requires opened { IsOpened book.now opened }
    requires schedule_value { schedule.now ≡ schedule_of (content book.now) }
    requires costs_value { costs.now ≡ own_costs (content book.now) }
    requires listed_len { (length listed.old ≡ opened.plan.activities.count * 3) × (length budgets.old ≡ opened.plan.activities.count) }
    ensures listed { listed.new ≡ listed_of (content book.now) }
    ensures budgets { budgets.new ≡ budgets_of (content book.now) }
{
    let list = lines_of(opened.ledger.baseline);
    if budgets.len() <= FEW {
        list_by::<160>(book, list, schedule, costs, listed, budgets);
    } else {
        list_by::<2500>(book, list, schedule, costs, listed, budgets);
    }
}
