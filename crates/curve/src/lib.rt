// The planned curve: the running total of what is planned by date, over all leaves.
#![tactic(auto)]

pub mod leaves;

ghost use Rattle.std.specs.Prelude.{map, ◌≡◌, ◌*◌, ◌≤◌, length};
ghost use Rattle.format.specs.Verdict.{content};
ghost use Rattle.model.specs.Planned.{planned_by_day, planned_curve_between};
ghost use Rattle.answers.specs.Calls.{Puts};
ghost use Rattle.answers.specs.Opened.{IsOpened};
ghost use Rattle.answers.specs.Rows.{point_row, planned_curve_rows};
ghost use Rattle.laid.specs.Laid.{Laid};
ghost use Rattle.bydate.specs.Sizes.{dates_of, IsEmpty};
ghost use Rattle.phased.specs.Columns.{ArePhased};
ghost use Rattle.curve.specs.Asking.{narrowed, IsAsked};

use crate::leaves::lay_leaves;
use activities::schedule::FEW;
use answers::Reply;
use answers::open::Opened;
use baseline::listed::LISTED_WIDTH;
use bydate::sizes::fits_small;
use bydate::totals::write_totals;
use calendar::all::fill_all;
use phased::phase;
use planned::{Reach, reach_of};
use spans::Stretch;

// What is asked of a book: the dates between two of the stretch that its listed spans take.
#[derive(Clone, Copy)]
pub struct Asked {
    pub reach: Reach,
    pub from: u64,
    pub to: u64,
}

// The dates between two, as far as the reach has them.
fn ask(reach: Reach, between: Stretch) -> Asked
    ensures { result ≡ narrowed reach between }
{
    Asked {
        reach,
        from: between.from.max(reach.known.from),
        to: between.to.min(reach.known.to),
    }
}

// Lays what is planned by date. The table of the days is to work in.
fn lay_plan(
    book: &[u8],
    asked: Asked,
    marks: &[u64; 500],
    budgets: &[i64],
    listed: &[u64],
    days: &mut [u8],
    table: &mut [u64],
)
    requires asked { IsAsked book.now asked marks.now listed.now budgets.now }
    requires known_in_bounds { asked.reach.calendars.count * dates_of asked.reach.known ≤ length days.old }
    ensures { Laid asked.reach.known.from (planned_by_day (content book.now)) table.old table.new }
{
    fill_all(
        book,
        asked.reach.calendars,
        asked.reach.known.from,
        asked.reach.known.to,
        days,
    );
    let width = asked.reach.known.to + 1 - asked.reach.known.from;
    lay_leaves(
        marks,
        budgets,
        listed,
        days,
        asked.reach.known.from,
        width,
        table,
    );
}

// The rows, by tables that are lent: of the days, and by date.
fn rows_in(
    book: &[u8],
    asked: Asked,
    marks: &[u64; 500],
    budgets: &[i64],
    listed: &[u64],
    days: &mut [u8],
    table: &mut [u64],
    out: &mut [u64],
) -> Reply
    requires asked { IsAsked book.now asked marks.now listed.now budgets.now }
    requires known_in_bounds { asked.reach.calendars.count * dates_of asked.reach.known ≤ length days.old }
    requires empty { IsEmpty (dates_of asked.reach.known) table.old }
    ensures { Puts (map point_row (planned_curve_between (content book.now) asked.from asked.to)) out.old result out.new }
{
    lay_plan(book, asked, marks, budgets, listed, days, table);
    write_totals(asked.reach.known.from, asked.from, asked.to, table, out)
}

// The same, with tables of its own.
#[inline(never)]
fn sized_rows<const DAYS: usize, const TABLE: usize>(
    book: &[u8],
    asked: Asked,
    marks: &[u64; 500],
    budgets: &[i64],
    listed: &[u64],
    out: &mut [u64],
) -> Reply
    requires asked { IsAsked book.now asked marks.now listed.now budgets.now }
    requires room { (asked.reach.calendars.count * dates_of asked.reach.known ≤ DAYS) × (dates_of asked.reach.known * 2 ≤ TABLE) }
    requires most { (DAYS ≤ 584400) × (TABLE ≤ 73050) }
    ensures { Puts (map point_row (planned_curve_between (content book.now) asked.from asked.to)) out.old result out.new }
{
    let mut days = [0u8; DAYS];
    let mut table = [0u64; TABLE];
    rows_in(
        book, asked, marks, budgets, listed, &mut days, &mut table, out,
    )
}

// The rows between two dates, from what planned value is made of.
fn rows_of(
    book: &[u8],
    opened: Opened,
    between: Stretch,
    marks: &[u64; 500],
    budgets: &[i64],
    listed: &[u64],
    out: &mut [u64],
) -> Reply
    requires opened { IsOpened book.now opened }
    requires are_phased { ArePhased (content book.now) marks.now listed.now budgets.now }
    ensures { Puts (map point_row (planned_curve_between (content book.now) between.from between.to)) out.old result out.new }
{
    let reach = reach_of(book, opened, listed, budgets);
    let asked = ask(reach, between);
    if asked.to < asked.from {
        return Ok(0);
    }
    if fits_small(reach.calendars.count, reach.known) {
        return sized_rows::<8192, 4096>(book, asked, marks, budgets, listed, out);
    }
    sized_rows::<584400, 73050>(book, asked, marks, budgets, listed, out)
}

// The rows between two dates, with slices to work in.
fn rows_by(
    book: &[u8],
    opened: Opened,
    between: Stretch,
    listed: &mut [u64],
    budgets: &mut [i64],
    out: &mut [u64],
) -> Reply
    requires opened { IsOpened book.now opened }
    requires listed_len { (length listed.old ≡ opened.plan.activities.count * 3) × (length budgets.old ≡ opened.plan.activities.count) }
    ensures { Puts (map point_row (planned_curve_between (content book.now) between.from between.to)) out.old result out.new }
{
    let marks = phase(book, opened, listed, budgets);
    rows_of(book, opened, between, &marks, budgets, listed, out)
}

// The rows between two dates, with tables for as many activities as a book may have.
fn many_rows(book: &[u8], opened: Opened, between: Stretch, out: &mut [u64]) -> Reply
    requires opened { IsOpened book.now opened }
    requires count_bound { opened.plan.activities.count ≤ 500 }
    ensures { Puts (map point_row (planned_curve_between (content book.now) between.from between.to)) out.old result out.new }
{
    let mut listed = [0u64; 1500];
    let mut budgets = [0i64; 500];
    let n = opened.plan.activities.count as usize;
    rows_by(
        book,
        opened,
        between,
        &mut listed[..n * LISTED_WIDTH],
        &mut budgets[..n],
        out,
    )
}

// The rows between two dates of a book of few activities: by short tables where its dates are few, else as those of any book.
fn few_of(
    book: &[u8],
    opened: Opened,
    between: Stretch,
    marks: &[u64; 500],
    budgets: &[i64],
    listed: &[u64],
    out: &mut [u64],
) -> Reply
    requires opened { IsOpened book.now opened }
    requires are_phased { ArePhased (content book.now) marks.now listed.now budgets.now }
    ensures { Puts (map point_row (planned_curve_between (content book.now) between.from between.to)) out.old result out.new }
{
    let reach = reach_of(book, opened, listed, budgets);
    let asked = ask(reach, between);
    if asked.to < asked.from {
        return Ok(0);
    }
    if reach.known.to < reach.known.from + 256 {
        return sized_rows::<4096, 512>(book, asked, marks, budgets, listed, out);
    }
    many_rows(book, opened, between, out)
}

// The same, with slices to work in.
fn few_by(
    book: &[u8],
    opened: Opened,
    between: Stretch,
    listed: &mut [u64],
    budgets: &mut [i64],
    out: &mut [u64],
) -> Reply
    requires opened { IsOpened book.now opened }
    requires listed_len { (length listed.old ≡ opened.plan.activities.count * 3) × (length budgets.old ≡ opened.plan.activities.count) }
    ensures { Puts (map point_row (planned_curve_between (content book.now) between.from between.to)) out.old result out.new }
{
    let marks = phase(book, opened, listed, budgets);
    few_of(book, opened, between, &marks, budgets, listed, out)
}

// The same, with tables for few activities.
fn few_rows(book: &[u8], opened: Opened, between: Stretch, out: &mut [u64]) -> Reply
    requires opened { IsOpened book.now opened }
    requires count_bound { opened.plan.activities.count ≤ 32 }
    ensures { Puts (map point_row (planned_curve_between (content book.now) between.from between.to)) out.old result out.new }
{
    let mut listed = [0u64; 96];
    let mut budgets = [0i64; 32];
    let n = opened.plan.activities.count as usize;
    few_by(
        book,
        opened,
        between,
        &mut listed[..n * LISTED_WIDTH],
        &mut budgets[..n],
        out,
    )
}

// The points of the planned curve between two dates, both included; none without activities.
pub fn planned_curve_of(book: &[u8], opened: Opened, from: u64, to: u64, out: &mut [u64]) -> Reply
    requires { IsOpened book.now opened }
    ensures { Puts (planned_curve_rows from to (content book.now)) out.old result out.new }
{
    if opened.plan.activities.count == 0 {
        return Ok(0);
    }
    if opened.plan.activities.count <= FEW as u64 {
        return few_rows(book, opened, Stretch { from, to }, out);
    }
    many_rows(book, opened, Stretch { from, to }, out)
}
