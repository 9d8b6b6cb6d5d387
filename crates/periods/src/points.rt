// The figures that the records make, and the rows of the periods.
ghost use Rattle.std.specs.Prelude.{◌+◌, ◌*◌, ◌≤◌, ◌<◌, ◌≡◌, length};
ghost use mathlib.Core.List.{flat_map};
ghost use Rattle.std.proofs.lemmas.List.Edits.{sets};
ghost use Rattle.format.specs.InRange.{Every, PeriodRecordInRange};
ghost use Rattle.format.specs.Format as layout;
ghost use Rattle.records.specs.Decoded.{period_record_of};
ghost use Rattle.sections.specs.Sections.{alike_in};
ghost use Rattle.lists.specs.Lists.{span};
ghost use Rattle.tree.specs.Figures.{figure_of};
ghost use Rattle.calendar.specs.Changes.{Changed};
ghost use Rattle.periods.specs.Points.{recorded_one, recorded, if_stored, point_row, point_at};

use money::words::to_bits;
use records::periods::{PeriodRecord, read_period_record};
use rows::put_row;
use sections::Section;
use todate::{ACTUAL, EARNED, WIDTH, add_entry, entry_of};

// Takes a record of a leaf into the figures, and none of a parent; `finishes`: when the periods close.
fn take_record(x: PeriodRecord, marks: &[u64; 500], finishes: &[u64], figures: &mut [i64])
    requires activity_bound { (x.activity < 500) × (x.period < length finishes.now) }
    requires figures_len { length figures.old ≡ length finishes.now * 3 }
    ensures { Changed 3 (recorded_one marks.now finishes.now (period_record_of x)) figures.old figures.new }
{
    if marks[x.activity as usize] == 0 {
        let entry = entry_of(x);
        add_entry(entry, finishes, figures);
    }
}

// Each record in the book's order, in a book with so many activities.
pub fn take_records(
    book: &[u8],
    list: Section,
    activities: u64,
    marks: &[u64; 500],
    finishes: &[u64],
    figures: &mut [i64],
)
    requires every { Every (PeriodRecordInRange (length finishes.now) activities) (alike_in (layout.period_record (length finishes.now) activities) book.now list) }
    requires activities_bound { activities ≤ 500 }
    requires figures_len { length figures.old ≡ length finishes.now * 3 }
    ensures { Changed 3 (recorded marks.now finishes.now (alike_in (layout.period_record (length finishes.now) activities) book.now list)) figures.old figures.new }
{
    let count = list.count;
    let periods = finishes.len() as u64;
    let mut next = list.first;
    for _ in 0..count {
        let x = read_period_record(book, next, periods, activities);
        take_record(x, marks, finishes, figures);
        next = x.next;
    }
}

// A figure's bits by the mark of its period: 0 where nothing is stored.
fn if_stored(stored: i64, figure: i64) -> u64
    ensures { result ≡ if_stored stored figure }
{
    if to_bits(stored) == 0 {
        return 0;
    }
    to_bits(figure)
}

// The row of period p, which closes at `finish`.
fn put_point(p: usize, finish: u64, planned: i64, figures: &[i64], out: &mut [u64])
    requires { (p * 3 + 3 ≤ length figures.now) × (p * 7 + 7 ≤ length out.old) }
    ensures { out.new ≡ sets out.old (p * 7) (point_row p finish planned (figure_of figures.now (p * 3)) (figure_of figures.now (p * 3 + 1)) (figure_of figures.now (p * 3 + 2))) }
{
    let stored = figures[p * WIDTH];
    let earned = figures[p * WIDTH + EARNED];
    let actual = figures[p * WIDTH + ACTUAL];
    let value = to_bits(planned);
    let mark = to_bits(stored);
    let worth = if_stored(stored, earned);
    let spent = if_stored(stored, actual);
    let row = [p as u64, finish, value, mark, worth, mark, spent];
    put_row(&row, p * 7, out);
}

// The rows of all periods.
pub fn put_points(finishes: &[u64], planned: &[i64], figures: &[i64], out: &mut [u64])
    requires { (length planned.now ≡ length finishes.now) × (length figures.now ≡ length finishes.now * 3) × (length out.old ≡ length finishes.now * 7) }
    ensures { out.new ≡ flat_map (point_at finishes.now planned.now figures.now) (span 0 (length finishes.now)) }
{
    for p in 0..finishes.len() {
        let value = planned[p];
        put_point(p, finishes[p], value, figures, out);
    }
}
