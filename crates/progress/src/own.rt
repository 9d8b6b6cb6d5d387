// The activities' own figures of earned value at a date, from the book.
ghost use Rattle.std.specs.Prelude.{◌*◌, ◌≤◌, ◌≡◌, length};
ghost use Rattle.format.specs.Verdict.{content};
ghost use Rattle.tree.specs.Tables.{own_values};
ghost use Rattle.activities.specs.Schedule.{schedule_of};
ghost use Rattle.answers.specs.Opened.{IsOpened};
ghost use Rattle.phased.specs.Columns.{HasRoom};

use activities::schedule::FEW;
use answers::open::Opened;
use baseline::listed::LISTED_WIDTH;
use earned::dated::date_values;
use earned::measured::measure;
use phased::fill_columns;
use tree::table::COST_WIDTH;

// What no date changes, with slices for what it is made from, then planned value at the date.
fn make_own(
    book: &[u8],
    opened: Opened,
    date: u64,
    schedule: &mut [u64],
    costs: &mut [i64],
    listed: &mut [u64],
    budgets: &mut [i64],
    own: &mut [i64],
)
    requires opened { IsOpened book.now opened }
    requires has_room { HasRoom opened.plan.activities.count schedule.old costs.old listed.old budgets.old }
    requires own_len { length own.old ≡ opened.plan.activities.count * 5 }
    ensures schedule { schedule.new ≡ schedule_of (content book.now) }
    ensures own { own.new ≡ own_values (content book.now) date }
{
    fill_columns(book, opened, schedule, costs, listed, budgets);
    measure(book, opened, schedule, costs, budgets, own);
    date_values(book, opened, date, listed, budgets, own);
}

// The same, with tables of its own.
#[inline(never)]
fn own_sized<const COSTS: usize, const LISTED: usize, const BUDGETS: usize>(
    book: &[u8],
    opened: Opened,
    date: u64,
    schedule: &mut [u64],
    own: &mut [i64],
)
    requires opened { IsOpened book.now opened }
    requires room { (opened.plan.activities.count * 3 ≤ COSTS) × (opened.plan.activities.count * 3 ≤ LISTED) × (opened.plan.activities.count ≤ BUDGETS) }
    requires most { (COSTS ≤ 1500) × (LISTED ≤ 1500) × (BUDGETS ≤ 500) }
    requires schedule_len { (length schedule.old ≡ opened.plan.activities.count * 13) × (length own.old ≡ opened.plan.activities.count * 5) }
    ensures schedule { schedule.new ≡ schedule_of (content book.now) }
    ensures own { own.new ≡ own_values (content book.now) date }
{
    let mut costs = [0i64; COSTS];
    let mut listed = [0u64; LISTED];
    let mut budgets = [0i64; BUDGETS];
    let n = opened.plan.activities.count as usize;
    make_own(
        book,
        opened,
        date,
        schedule,
        &mut costs[..n * COST_WIDTH],
        &mut listed[..n * LISTED_WIDTH],
        &mut budgets[..n],
        own,
    );
}

// The own figures, and the schedule that they are made from: small tables for few activities.
pub fn own_values(book: &[u8], opened: Opened, date: u64, schedule: &mut [u64], own: &mut [i64])
    requires opened { IsOpened book.now opened }
    requires schedule_len { (length schedule.old ≡ opened.plan.activities.count * 13) × (length own.old ≡ opened.plan.activities.count * 5) }
    ensures schedule { schedule.new ≡ schedule_of (content book.now) }
    ensures own { own.new ≡ own_values (content book.now) date }
{
    if opened.plan.activities.count <= FEW as u64 {
        own_sized::<96, 96, 32>(book, opened, date, schedule, own);
        return;
    }
    own_sized::<1500, 1500, 500>(book, opened, date, schedule, own);
}
