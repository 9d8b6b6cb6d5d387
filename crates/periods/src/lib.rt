// The financial periods of a book, as rows.
#![tactic(auto)]

ghost use Rattle.std.specs.Prelude.{ℕ, ◌*◌, ◌≤◌, ◌≡◌, pos, length};
ghost use Rattle.format.specs.Verdict.{content};
ghost use Rattle.tree.specs.Figures.{figure_of};
ghost use Rattle.rows.specs.Rows.{numbers};
ghost use Rattle.answers.specs.Rows.{period_points_rows};
ghost use Rattle.answers.specs.Opened.{IsOpened};
ghost use Rattle.answers.specs.Calls.{Puts};

use crate::finishes::fill_finishes;
use crate::listed::project_planned;
use crate::points::{put_points, take_records};
use answers::open::Opened;
use answers::{Reply, TOO_SHORT};
use todate::WIDTH;

mod finishes;
mod listed;
mod points;

// The closes, the planned values, the figures of the records, then the rows; tables of the periods are lent, that of the figures with zeros.
fn put_figures(
    book: &[u8],
    opened: Opened,
    finishes: &mut [u64],
    planned: &mut [i64],
    figures: &mut [i64],
    out: &mut [u64],
)
    requires opened { IsOpened book.now opened }
    requires finishes_len { (length finishes.old ≡ opened.ledger.periods.count) × (length planned.old ≡ opened.ledger.periods.count) × (length figures.old ≡ opened.ledger.periods.count * 3) × (length out.old ≡ opened.ledger.periods.count * 7) }
    requires by_index { (i : ℕ) → figure_of figures.old i ≡ pos 0 }
    ensures { out.new ≡ numbers (period_points_rows (content book.now)) }
{
    fill_finishes(book, opened.ledger.periods, finishes);
    let marks = project_planned(book, opened, finishes, planned);
    take_records(
        book,
        opened.ledger.records,
        opened.plan.activities.count,
        &marks,
        finishes,
        figures,
    );
    put_points(finishes, planned, figures, out);
}

// With tables of its own.
#[inline(never)]
fn sized_periods<const PERIODS: usize, const FIGURES: usize>(
    book: &[u8],
    opened: Opened,
    out: &mut [u64],
)
    requires opened { IsOpened book.now opened }
    requires room { (opened.ledger.periods.count ≤ PERIODS) × (opened.ledger.periods.count * 3 ≤ FIGURES) }
    requires most { (PERIODS ≤ 240) × (FIGURES ≤ 720) }
    requires out_len { length out.old ≡ opened.ledger.periods.count * 7 }
    ensures { out.new ≡ numbers (period_points_rows (content book.now)) }
{
    let mut finishes = [0u64; PERIODS];
    let mut planned = [0i64; PERIODS];
    let mut figures = [0i64; FIGURES];
    let n = opened.ledger.periods.count as usize;
    put_figures(
        book,
        opened,
        &mut finishes[..n],
        &mut planned[..n],
        &mut figures[..n * WIDTH],
        out,
    );
}

// The same: small tables for at most 24 periods.
fn put_periods(book: &[u8], opened: Opened, out: &mut [u64])
    requires opened { IsOpened book.now opened }
    requires out_len { length out.old ≡ opened.ledger.periods.count * 7 }
    ensures { out.new ≡ numbers (period_points_rows (content book.now)) }
{
    if opened.ledger.periods.count <= 24 {
        sized_periods::<24, 72>(book, opened, out);
        return;
    }
    sized_periods::<240, 720>(book, opened, out);
}

// A row for each financial period, where they fit; without periods nothing is read.
pub fn period_points_of(book: &[u8], opened: Opened, out: &mut [u64]) -> Reply
    requires { IsOpened book.now opened }
    ensures { Puts (period_points_rows (content book.now)) out.old result out.new }
{
    let n = opened.ledger.periods.count as usize * 7;
    if out.len() < n {
        return Err(TOO_SHORT);
    }
    if n == 0 {
        return Ok(0);
    }
    put_periods(book, opened, &mut out[..n]);
    Ok(opened.ledger.periods.count)
}
