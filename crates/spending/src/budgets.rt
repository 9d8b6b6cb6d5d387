// The tables of what is charged to the budgets of an accepted book: its charges and the rates of its resources, in arrays for few of them, or for as many as a book may have.
ghost use Rattle.std.specs.Prelude.{◌*◌, ◌≤◌, true, ◌≡◌, length};
ghost use Rattle.format.specs.Verdict.{content};
ghost use Rattle.book.specs.Plan.{IsPlanOf};
ghost use Rattle.model.specs.Costs.{spending_between};
ghost use Rattle.spending.specs.Asking.{IsAsked};
ghost use Rattle.spending.specs.Budgeted.{charge_count, HasRoom, AreWithin, AreFew};
ghost use Rattle.spending.specs.Charged.{AreTables};
ghost use Rattle.spending.specs.Grained.{Writes};

use crate::asked::Asked;
use crate::chains::chain;
use crate::dated::dated_rows;
use answers::Reply;
use answers::open::Opened;
use charges::assigned::fill_assigned;
use charges::expensed::fill_expensed;
use prices::rates::{RATE_WIDTH, fill_rates};

// The assignments, and behind them the expenses.
fn fill_charges(book: &[u8], opened: Opened, links: &mut [u64], units: &mut [i64])
    requires plan_of { IsPlanOf book.now opened.date opened.plan }
    requires links_len { (length links.old ≡ charge_count opened.plan * 2) × (length units.old ≡ charge_count opened.plan * 3) }
    ensures { AreTables (content book.now) opened.plan.assignments.count links.new units.new }
{
    let date = opened.date;
    let m = opened.plan.assignments.count as usize;
    let a = m * 2;
    let b = m * 3;
    fill_assigned(book, date, opened.plan, &mut links[..a], &mut units[..b]);
    fill_expensed(book, date, opened.plan, &mut links[a..], &mut units[b..]);
}

// The rows, with slices for the charges and the rates.
fn charged_rows(
    book: &[u8],
    asked: Asked,
    schedule: &[u64],
    rates: &mut [u64],
    links: &mut [u64],
    units: &mut [i64],
    out: &mut [u64],
) -> Reply
    requires asked { IsAsked book.now asked schedule.now }
    requires has_room { HasRoom asked.opened.plan rates.old links.old units.old }
    ensures { Writes asked.grain (spending_between (content book.now) asked.from asked.to) out.old result out.new }
{
    fill_rates(book, asked.opened.plan.resources, rates);
    fill_charges(book, asked.opened, links, units);
    let heads = chain(links);
    dated_rows(book, asked, schedule, rates, links, units, &heads, out)
}

// Whether charges and resources are at most so many.
fn are_within(most: u64, rated: u64, charges: u64, resources: u64) -> bool
    ensures { result ≡ true → AreWithin most rated charges resources }
{
    charges <= most && resources <= rated
}

// Whether so many charges and resources are few.
pub fn are_few(charges: u64, resources: u64) -> bool
    ensures { result ≡ true → AreFew charges resources }
{
    are_within(256, 24, charges, resources)
}

// The rows, with arrays for the charges and the rates.
#[inline(never)]
fn sized_rows<const RATES: usize, const LINKS: usize, const UNITS: usize>(
    book: &[u8],
    asked: Asked,
    schedule: &[u64],
    out: &mut [u64],
) -> Reply
    requires asked { IsAsked book.now asked schedule.now }
    requires room { (asked.opened.plan.resources.count * 82 ≤ RATES) × (charge_count asked.opened.plan * 2 ≤ LINKS) × (charge_count asked.opened.plan * 3 ≤ UNITS) }
    requires most { (RATES ≤ 16400) × (LINKS ≤ 6000) × (UNITS ≤ 9000) }
    ensures { Writes asked.grain (spending_between (content book.now) asked.from asked.to) out.old result out.new }
{
    let mut rates = [0u64; RATES];
    let mut links = [0u64; LINKS];
    let mut units = [0i64; UNITS];
    let r = asked.opened.plan.resources.count as usize;
    let n = (asked.opened.plan.assignments.count + asked.opened.plan.expenses.count) as usize;
    charged_rows(
        book,
        asked,
        schedule,
        &mut rates[..r * RATE_WIDTH],
        &mut links[..n * 2],
        &mut units[..n * 3],
        out,
    )
}

// The rows, where there are few.
pub fn few_rows(book: &[u8], asked: Asked, schedule: &[u64], out: &mut [u64]) -> Reply
    requires asked { IsAsked book.now asked schedule.now }
    requires are_few { AreFew (charge_count asked.opened.plan) asked.opened.plan.resources.count }
    ensures { Writes asked.grain (spending_between (content book.now) asked.from asked.to) out.old result out.new }
{
    let charges = asked.opened.plan.assignments.count + asked.opened.plan.expenses.count;
    if are_within(48, 6, charges, asked.opened.plan.resources.count) {
        return sized_rows::<492, 96, 144>(book, asked, schedule, out);
    }
    sized_rows::<1968, 512, 768>(book, asked, schedule, out)
}

// The rows, for as many as a book may have.
pub fn many_rows(book: &[u8], asked: Asked, schedule: &[u64], out: &mut [u64]) -> Reply
    requires { IsAsked book.now asked schedule.now }
    ensures { Writes asked.grain (spending_between (content book.now) asked.from asked.to) out.old result out.new }
{
    sized_rows::<16400, 6000, 9000>(book, asked, schedule, out)
}
