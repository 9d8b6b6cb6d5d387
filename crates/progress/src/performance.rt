// How much of an activity is done, under the technique of the book.
ghost use Rattle.std.specs.Prelude.{ℕ, ◌*◌, ◌≤◌, ◌<◌, ◌≡◌, pos, length, get_or};
ghost use Rattle.format.specs.Verdict.{content};
ghost use Rattle.model.specs.Earned as model;
ghost use Rattle.answers.specs.Rows.{performance_rows};
ghost use Rattle.answers.specs.Calls.{Puts};
ghost use Rattle.answers.specs.Opened.{IsOpened};

use activities::schedule::{FEW, row_at};
use answers::open::Opened;
use answers::{Reply, TOO_SHORT};
use earned::performance::share_done;
use earned::units::fill_units;
use floats::bits;

// With a table of zeros for the units.
fn measure_by(book: &[u8], opened: Opened, activity: u64, units: &mut [i64]) -> f64
    requires opened { IsOpened book.now opened }
    requires activity_lt_count { activity < opened.plan.activities.count }
    requires units_len { (length units.old ≡ opened.plan.activities.count * 2) × ((k : ℕ) → get_or units.old k (pos 0) ≡ pos 0) }
    ensures { result ≡ model.performance (content book.now) activity }
{
    let data_date = opened.date;
    let technique = opened.technique;
    let row = row_at(book, data_date, opened.plan, activity);
    fill_units(book, data_date, opened.plan, technique, units);
    let i = activity as usize;
    let done = units[i * 2];
    let all = units[i * 2 + 1];
    share_done(technique, &row, 0, done, all)
}

// The same, with a table of its own.
#[inline(never)]
fn measure_sized<const UNITS: usize>(book: &[u8], opened: Opened, activity: u64) -> f64
    requires opened { IsOpened book.now opened }
    requires room { opened.plan.activities.count * 2 ≤ UNITS }
    requires most { UNITS ≤ 1000 }
    requires activity_lt_count { activity < opened.plan.activities.count }
    ensures { result ≡ model.performance (content book.now) activity }
{
    let mut units = [0i64; UNITS];
    let count = opened.plan.activities.count as usize;
    measure_by(book, opened, activity, &mut units[..count * 2])
}

// Of activity i: a small table for few activities.
fn performance(book: &[u8], opened: Opened, activity: u64) -> f64
    requires opened { IsOpened book.now opened }
    requires activity_lt_count { activity < opened.plan.activities.count }
    ensures { result ≡ model.performance (content book.now) activity }
{
    if opened.plan.activities.count <= FEW as u64 {
        return measure_sized::<64>(book, opened, activity);
    }
    measure_sized::<1000>(book, opened, activity)
}

// One number, where it fits.
pub fn performance_of(book: &[u8], opened: Opened, activity: u64, out: &mut [u64]) -> Reply
    requires opened { IsOpened book.now opened }
    requires activity_lt_count { activity < opened.plan.activities.count }
    ensures { Puts (performance_rows activity (content book.now)) out.old result out.new }
{
    if out.len() < 1 {
        return Err(TOO_SHORT);
    }
    out[0] = bits(performance(book, opened, activity));
    Ok(1)
}
