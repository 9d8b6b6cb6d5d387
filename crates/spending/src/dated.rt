// The rows by date from the charges of an accepted book: small tables by date where they are enough, else tables for all dates of a book.
ghost use Rattle.std.specs.Prelude.{◌*◌, ◌≤◌, length};
ghost use Rattle.format.specs.Verdict.{content};
ghost use Rattle.model.specs.Costs.{spending_between};
ghost use Rattle.bydate.specs.Pointed.{points_in, Reaches};
ghost use Rattle.bydate.specs.Sizes.{dates_of, IsEmpty};
ghost use Rattle.spending.specs.Asking.{IsAsked, IsCharged};
ghost use Rattle.spending.specs.Grained.{Writes};

use crate::asked::{Asked, Grain};
use crate::charged::lay_activities;
use answers::Reply;
use bydate::bymonth::write_months;
use bydate::points::write_points;
use bydate::sizes::fits_small;
use calendar::all::fill_all;
use twelve::Reach;
use twelve::writing::write_twelve_months;

// The rows of the points of a table between the dates that are asked.
fn write_rows(asked: Asked, table: &[u64], out: &mut [u64]) -> Reply
    requires { Reaches asked.known.from table.now asked.from asked.to × (10957 ≤ asked.from) }
    ensures { Writes asked.grain (points_in asked.known.from table.now asked.from asked.to) out.old result out.new }
{
    let grain = asked.grain;
    match grain {
        Grain::Day => write_points(asked.known.from, asked.from, asked.to, table, out),
        Grain::Month => write_months(asked.known.from, asked.from, asked.to, table, out),
        Grain::TwelveMonths => {
            let reach = Reach {
                base: asked.known.from,
                from: asked.from,
                to: asked.to,
            };
            write_twelve_months(reach, table, out)
        }
    }
}

// The rows, by tables that are lent: of the days, and by date.
fn rows_in(
    book: &[u8],
    asked: Asked,
    schedule: &[u64],
    rates: &[u64],
    links: &[u64],
    units: &[i64],
    heads: &[u64; 500],
    days: &mut [u8],
    table: &mut [u64],
    out: &mut [u64],
) -> Reply
    requires asked { IsAsked book.now asked schedule.now }
    requires charged { IsCharged book.now asked rates.now links.now units.now heads.now }
    requires known_in_bounds { asked.opened.plan.calendars.count * dates_of asked.known ≤ length days.old }
    requires empty { IsEmpty (dates_of asked.known) table.old }
    ensures { Writes asked.grain (spending_between (content book.now) asked.from asked.to) out.old result out.new }
{
    fill_all(
        book,
        asked.opened.plan.calendars,
        asked.known.from,
        asked.known.to,
        days,
    );
    lay_activities(
        schedule,
        rates,
        links,
        units,
        heads,
        days,
        asked.frame,
        table,
    );
    write_rows(asked, table, out)
}

// The same, with tables of its own.
#[inline(never)]
fn sized_rows<const DAYS: usize, const TABLE: usize>(
    book: &[u8],
    asked: Asked,
    schedule: &[u64],
    rates: &[u64],
    links: &[u64],
    units: &[i64],
    heads: &[u64; 500],
    out: &mut [u64],
) -> Reply
    requires asked { IsAsked book.now asked schedule.now }
    requires charged { IsCharged book.now asked rates.now links.now units.now heads.now }
    requires room { (asked.opened.plan.calendars.count * dates_of asked.known ≤ DAYS) × (dates_of asked.known * 2 ≤ TABLE) }
    requires most { (DAYS ≤ 584400) × (TABLE ≤ 73050) }
    ensures { Writes asked.grain (spending_between (content book.now) asked.from asked.to) out.old result out.new }
{
    let mut days = [0u8; DAYS];
    let mut table = [0u64; TABLE];
    rows_in(
        book, asked, schedule, rates, links, units, heads, &mut days, &mut table, out,
    )
}

// The rows, by the smallest tables by date that are enough.
pub fn dated_rows(
    book: &[u8],
    asked: Asked,
    schedule: &[u64],
    rates: &[u64],
    links: &[u64],
    units: &[i64],
    heads: &[u64; 500],
    out: &mut [u64],
) -> Reply
    requires asked { IsAsked book.now asked schedule.now }
    requires charged { IsCharged book.now asked rates.now links.now units.now heads.now }
    ensures { Writes asked.grain (spending_between (content book.now) asked.from asked.to) out.old result out.new }
{
    if asked.known.to < asked.known.from + 256 {
        return sized_rows::<4096, 512>(book, asked, schedule, rates, links, units, heads, out);
    }
    if fits_small(asked.opened.plan.calendars.count, asked.known) {
        return sized_rows::<8192, 4096>(book, asked, schedule, rates, links, units, heads, out);
    }
    sized_rows::<584400, 73050>(book, asked, schedule, rates, links, units, heads, out)
}
