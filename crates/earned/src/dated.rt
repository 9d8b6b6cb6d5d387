// The activities' own figures at a date: planned value is put beside those that no date changes.
ghost use Rattle.std.specs.Prelude.{◌+◌, ◌*◌, ◌≤◌, ◌≡◌, length};
ghost use Rattle.format.specs.Book.{Book};
ghost use Rattle.format.specs.Verdict.{content};
ghost use Rattle.tree.specs.Tables.{own_values};
ghost use Rattle.answers.specs.Opened.{IsOpened};
ghost use Rattle.baseline.specs.Listed.{listed_of, budgets_of};
ghost use Rattle.bydate.specs.Sizes.{dates_of};
ghost use Rattle.planned.specs.Tabled.{AreTabled};
ghost use Rattle.planned.specs.Reached.{IsReach, AreDays};
ghost use Rattle.earned.specs.Measured.{Measured};

use activities::schedule::FEW;
use answers::open::Opened;
use bydate::sizes::fits_small;
use calendar::all::fill_all;
use planned::own::planned_at;
use planned::{Reach, reach_of};
use spans::Stretch;
use tree::table::VALUE_WIDTH;

// Planned value, as the second figure of each row, by a table of the days of all calendars.
fn put_planned(
    date: u64,
    known: Stretch,
    days: &[u8],
    listed: &[u64],
    budgets: &[i64],
    out: &mut [i64],
)
    requires from_bound { (known.from ≤ known.to + 1) × (known.to ≤ 47481) }
    requires are_tabled { AreTabled known.from (dates_of known) (length budgets.now) days.now listed.now }
    requires out_len { length out.old ≡ length budgets.now * 5 }
    ensures { (book : Book) → AreDays book known listed.now budgets.now days.now → Measured book out.old → out.new ≡ own_values book date }
{
    let width = known.to + 1 - known.from;
    for i in 0..budgets.len() {
        let figure = planned_at(date, known.from, width, days, listed, budgets, i);
        out[i * VALUE_WIDTH + 1] = figure;
    }
}

// With a table that has room for the days of all calendars.
fn date_by(
    book: &[u8],
    reach: Reach,
    date: u64,
    listed: &[u64],
    budgets: &[i64],
    days: &mut [u8],
    out: &mut [i64],
)
    requires reach { IsReach book.now reach listed.now budgets.now }
    requires known_in_bounds { reach.calendars.count * dates_of reach.known ≤ length days.old }
    requires measured { Measured (content book.now) out.old }
    ensures { out.new ≡ own_values (content book.now) date }
{
    fill_all(
        book,
        reach.calendars,
        reach.known.from,
        reach.known.to,
        days,
    );
    let known = reach.known;
    put_planned(date, known, days, listed, budgets, out);
}

// With a table of its own.
#[inline(never)]
fn date_sized<const DAYS: usize>(
    book: &[u8],
    reach: Reach,
    date: u64,
    listed: &[u64],
    budgets: &[i64],
    out: &mut [i64],
)
    requires reach { IsReach book.now reach listed.now budgets.now }
    requires room { reach.calendars.count * dates_of reach.known ≤ DAYS }
    requires most { DAYS ≤ 584400 }
    requires measured { Measured (content book.now) out.old }
    ensures { out.new ≡ own_values (content book.now) date }
{
    let mut days = [0u8; DAYS];
    date_by(book, reach, date, listed, budgets, &mut days, out);
}

// Of any book.
fn date_any(book: &[u8], reach: Reach, date: u64, listed: &[u64], budgets: &[i64], out: &mut [i64])
    requires reach { IsReach book.now reach listed.now budgets.now }
    requires measured { Measured (content book.now) out.old }
    ensures { out.new ≡ own_values (content book.now) date }
{
    if fits_small(reach.calendars.count, reach.known) {
        date_sized::<8192>(book, reach, date, listed, budgets, out);
        return;
    }
    date_sized::<584400>(book, reach, date, listed, budgets, out);
}

// From the listed spans and the budgets; `out` has the other figures, and any planned value. A book of few activities over a short stretch does not enter the function that holds the large table.
pub fn date_values(
    book: &[u8],
    opened: Opened,
    date: u64,
    listed: &[u64],
    budgets: &[i64],
    out: &mut [i64],
)
    requires opened { IsOpened book.now opened }
    requires listed_value { (listed.now ≡ listed_of (content book.now)) × (budgets.now ≡ budgets_of (content book.now)) }
    requires measured { Measured (content book.now) out.old }
    ensures { out.new ≡ own_values (content book.now) date }
{
    let reach = reach_of(book, opened, listed, budgets);
    if budgets.len() > FEW {
        date_any(book, reach, date, listed, budgets, out);
        return;
    }
    if fits_small(reach.calendars.count, reach.known) {
        date_sized::<8192>(book, reach, date, listed, budgets, out);
        return;
    }
    date_any(book, reach, date, listed, budgets, out);
}
