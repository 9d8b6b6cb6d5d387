// What planned value is made of, read from an opened book: the leaves' budgets, and the spans over which they are phased.
#![tactic(auto)]

ghost use Rattle.std.specs.Prelude.{◌*◌, ◌≤◌, ◌≡◌, length};
ghost use Rattle.format.specs.Verdict.{content};
ghost use Rattle.answers.specs.Opened.{IsOpened};
ghost use Rattle.phased.specs.Columns.{AreColumns, HasRoom, ArePhased};

use activities::schedule::{FEW, SCHEDULE_WIDTH, fill_schedule, parent_marks};
use answers::open::Opened;
use baseline::listed::list_spans;
use costs::own::own_costs;
use tree::table::COST_WIDTH;

// The schedule, the own costs, the listed spans and the budgets: what no date changes.
pub fn fill_columns(
    book: &[u8],
    opened: Opened,
    schedule: &mut [u64],
    costs: &mut [i64],
    listed: &mut [u64],
    budgets: &mut [i64],
)
    requires opened { IsOpened book.now opened }
    requires has_room { HasRoom opened.plan.activities.count schedule.old costs.old listed.old budgets.old }
    ensures { AreColumns (content book.now) schedule.new costs.new listed.new budgets.new }
{
    let data_date = opened.date;
    fill_schedule(book, data_date, opened.plan, schedule);
    own_costs(book, data_date, opened.plan, schedule, costs);
    list_spans(book, opened, schedule, costs, listed, budgets);
}

// The listed spans and the budgets, with slices for what they are made from; the marks of the parents are returned.
fn phase_by(
    book: &[u8],
    opened: Opened,
    schedule: &mut [u64],
    costs: &mut [i64],
    listed: &mut [u64],
    budgets: &mut [i64],
) -> [u64; 500]
    requires opened { IsOpened book.now opened }
    requires has_room { HasRoom opened.plan.activities.count schedule.old costs.old listed.old budgets.old }
    ensures { ArePhased (content book.now) result listed.new budgets.new }
{
    fill_columns(book, opened, schedule, costs, listed, budgets);
    parent_marks(schedule)
}

// The same, with tables of its own.
#[inline(never)]
fn phase_sized<const SCHEDULE: usize, const COSTS: usize>(
    book: &[u8],
    opened: Opened,
    listed: &mut [u64],
    budgets: &mut [i64],
) -> [u64; 500]
    requires opened { IsOpened book.now opened }
    requires listed_len { (length listed.old ≡ opened.plan.activities.count * 3) × (length budgets.old ≡ opened.plan.activities.count) }
    requires room { (length budgets.old * 13 ≤ SCHEDULE) × (length budgets.old * 3 ≤ COSTS) }
    requires most { (SCHEDULE ≤ 6500) × (COSTS ≤ 1500) }
    ensures { ArePhased (content book.now) result listed.new budgets.new }
{
    let mut schedule = [0u64; SCHEDULE];
    let mut costs = [0i64; COSTS];
    let n = budgets.len();
    phase_by(
        book,
        opened,
        &mut schedule[..n * SCHEDULE_WIDTH],
        &mut costs[..n * COST_WIDTH],
        listed,
        budgets,
    )
}

// The same: small tables for few activities.
pub fn phase(book: &[u8], opened: Opened, listed: &mut [u64], budgets: &mut [i64]) -> [u64; 500]
    requires opened { IsOpened book.now opened }
    requires listed_len { (length listed.old ≡ opened.plan.activities.count * 3) × (length budgets.old ≡ opened.plan.activities.count) }
    ensures { ArePhased (content book.now) result listed.new budgets.new }
{
    if budgets.len() <= FEW {
        return phase_sized::<416, 96>(book, opened, listed, budgets);
    }
    phase_sized::<6500, 1500>(book, opened, listed, budgets)
}
