// The activities' own figures that no date changes: budget, earned value, actual and remaining cost of leaves, 0 for parents.
ghost use Rattle.std.specs.Prelude.{ℕ, ◌+◌, ◌*◌, ◌≤◌, ◌<◌, ◌≡◌, [], ◌∷◌, pos, length, get_or};
ghost use Rattle.std.proofs.lemmas.List.Edits.{sets};
ghost use Rattle.floats.specs.Figures.{earned_of};
ghost use Rattle.format.specs.InRange.{IsMinutes, InRange};
ghost use Rattle.format.specs.Book.{Book};
ghost use Rattle.format.specs.Verdict.{content};
ghost use Rattle.tree.specs.Figures.{figure_of};
ghost use Rattle.tree.specs.Tables.{own_costs};
ghost use Rattle.activities.specs.Schedule.{schedule_of, entry_at};
ghost use Rattle.answers.specs.Opened.{IsOpened};
ghost use Rattle.baseline.specs.Listed.{if_leaf, budgets_of};
ghost use Rattle.earned.specs.Done.{done_in};
ghost use Rattle.earned.specs.Units.{AreUnits};
ghost use Rattle.earned.specs.Measured.{measured_of};

use crate::performance::share_done;
use crate::units::fill_units;
use activities::schedule::{FEW, parent_marks};
use answers::open::Opened;
use floats::earned;
use format::EvTechnique;
use tree::table::{COST_WIDTH, VALUE_WIDTH};

// What a leaf earns of its budget; 0 for a parent.
fn leaf_earned(
    parent: u64,
    technique: EvTechnique,
    schedule: &[u64],
    units: &[i64],
    budget: i64,
    i: usize,
) -> i64
    requires i_in_bounds { (i * 13 + 12 < length schedule.now) × (i * 2 + 1 < length units.now) }
    requires minutes { IsMinutes (entry_at schedule.now i 9) × IsMinutes (entry_at schedule.now i 10) }
    ensures { result ≡ if_leaf parent (earned_of budget (done_in technique schedule.now i (figure_of units.now (i * 2)) (figure_of units.now (i * 2 + 1)))) }
{
    if parent == 0 {
        let done = units[i * 2];
        let all = units[i * 2 + 1];
        return earned(budget, share_done(technique, schedule, i, done, all));
    }
    0
}

// A cost of a leaf; 0 for a parent.
fn leaf_cost(parent: u64, costs: &[i64], at: usize) -> i64
    requires { at < length costs.now }
    ensures { result ≡ if_leaf parent (figure_of costs.now at) }
{
    if parent == 0 {
        return costs[at];
    }
    0
}

// A row, with no planned value.
fn put_row(at: usize, budget: i64, value: i64, actual: i64, remaining: i64, out: &mut [i64])
    requires { at + 4 < length out.old }
    ensures { out.new ≡ sets out.old at (budget ∷ pos 0 ∷ value ∷ actual ∷ remaining ∷ []) }
{
    out[at] = budget;
    out[at + 1] = 0;
    out[at + 2] = value;
    out[at + 3] = actual;
    out[at + 4] = remaining;
}

// One row after the other, from the schedule, the units, the own costs and the budgets.
fn measure_rows(
    technique: EvTechnique,
    schedule: &[u64],
    units: &[i64],
    costs: &[i64],
    budgets: &[i64],
    out: &mut [i64],
)
    requires schedule_len { (length schedule.now ≡ length budgets.now * 13) × (length units.now ≡ length budgets.now * 2) × (length costs.now ≡ length budgets.now * 3) × (length out.old ≡ length budgets.now * 5) × (length budgets.now ≤ 500) }
    requires by_index { (i : ℕ) → i < length budgets.now → IsMinutes (entry_at schedule.now i 9) × IsMinutes (entry_at schedule.now i 10) }
    ensures { (book : Book) → InRange book → book.technique ≡ technique → schedule.now ≡ schedule_of book → AreUnits book technique units.now → costs.now ≡ own_costs book → budgets.now ≡ budgets_of book → out.new ≡ measured_of book }
{
    let parents = parent_marks(schedule);
    for i in 0..budgets.len() {
        let budget = budgets[i];
        let value = leaf_earned(parents[i], technique, schedule, units, budget, i);
        let actual = leaf_cost(parents[i], costs, i * COST_WIDTH + 1);
        let remaining = leaf_cost(parents[i], costs, i * COST_WIDTH + 2);
        put_row(i * VALUE_WIDTH, budget, value, actual, remaining, out);
    }
}

// With a table of zeros for the units.
fn measure_by(
    book: &[u8],
    opened: Opened,
    schedule: &[u64],
    costs: &[i64],
    budgets: &[i64],
    units: &mut [i64],
    out: &mut [i64],
)
    requires opened { IsOpened book.now opened }
    requires schedule_value { (schedule.now ≡ schedule_of (content book.now)) × (costs.now ≡ own_costs (content book.now)) × (budgets.now ≡ budgets_of (content book.now)) }
    requires units_len { (length units.old ≡ opened.plan.activities.count * 2) × ((k : ℕ) → get_or units.old k (pos 0) ≡ pos 0) × (length out.old ≡ opened.plan.activities.count * 5) }
    ensures { out.new ≡ measured_of (content book.now) }
{
    let data_date = opened.date;
    let technique = opened.technique;
    fill_units(book, data_date, opened.plan, technique, units);
    measure_rows(technique, schedule, units, costs, budgets, out);
}

// With a table of its own.
#[inline(never)]
fn measure_sized<const UNITS: usize>(
    book: &[u8],
    opened: Opened,
    schedule: &[u64],
    costs: &[i64],
    budgets: &[i64],
    out: &mut [i64],
)
    requires opened { IsOpened book.now opened }
    requires schedule_value { (schedule.now ≡ schedule_of (content book.now)) × (costs.now ≡ own_costs (content book.now)) × (budgets.now ≡ budgets_of (content book.now)) }
    requires room { length budgets.now * 2 ≤ UNITS }
    requires most { UNITS ≤ 1000 }
    requires out_len { length out.old ≡ opened.plan.activities.count * 5 }
    ensures { out.new ≡ measured_of (content book.now) }
{
    let mut units = [0i64; UNITS];
    let n = budgets.len();
    measure_by(
        book,
        opened,
        schedule,
        costs,
        budgets,
        &mut units[..n * 2],
        out,
    );
}

// From the schedule, the own costs and the budgets. A small table for few activities.
pub fn measure(
    book: &[u8],
    opened: Opened,
    schedule: &[u64],
    costs: &[i64],
    budgets: &[i64],
    out: &mut [i64],
)
    requires opened { IsOpened book.now opened }
    requires schedule_value { (schedule.now ≡ schedule_of (content book.now)) × (costs.now ≡ own_costs (content book.now)) × (budgets.now ≡ budgets_of (content book.now)) }
    requires out_len { length out.old ≡ opened.plan.activities.count * 5 }
    ensures { out.new ≡ measured_of (content book.now) }
{
    if budgets.len() <= FEW {
        measure_sized::<64>(book, opened, schedule, costs, budgets, out);
        return;
    }
    measure_sized::<1000>(book, opened, schedule, costs, budgets, out);
}
