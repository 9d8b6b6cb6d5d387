// The lines of the baseline: of each activity the one that counts, as five numbers.
ghost use Rattle.std.specs.Prelude.{ℕ, ◌+◌, ◌*◌, ◌<◌, ◌≡◌, List, [], length, unwrap_or};
ghost use Rattle.format.specs.Format as layout;
ghost use Rattle.format.specs.Verdict.{content};
ghost use Rattle.records.specs.Decoded.{baseline_line_of};
ghost use Rattle.sections.specs.Sections.{alike_in};
ghost use Rattle.book.specs.Layout.{lines_of};
ghost use Rattle.baseline.specs.Lines as table;

use book::layout::Baseline;
use money::words::to_bits;
use records::activities::{BaselineLine, read_baseline_line};
use rows::put_row;
use sections::Section;

// The numbers of a line, and the places among them: 1 where there is a line, its start, its finish, its working minutes, the bits of its cost.
pub const LINE_WIDTH: usize = 5;

pub const START: usize = 1;

pub const FINISH: usize = 2;

pub const MINUTES: usize = 3;

pub const COST: usize = 4;

// The lines of a baseline: none without one.
pub fn lines_of(baseline: Baseline) -> Section
    ensures { (s : List ℕ) (n : ℕ) → unwrap_or (lines_of s n baseline) [] ≡ alike_in (layout.baseline_line n) s result }
{
    baseline.lines.unwrap_or(Section {
        count: 0,
        first: baseline.next,
        next: baseline.next,
    })
}

// A line counts where the last does, and where its activity has none before.
fn counts(last: bool, mark: u64) -> bool
    ensures { result ≡ table.counts last mark }
{
    last || mark == 0
}

// Takes a line into the row of its activity, where it counts.
fn take_line(line: BaselineLine, last: bool, out: &mut [u64])
    requires { line.activity * 5 + 4 < length out.old }
    ensures { out.new ≡ table.taken last out.old (baseline_line_of line) }
{
    let at = line.activity as usize * LINE_WIDTH;
    if counts(last, out[at]) {
        put_row(
            &[1, line.start, line.finish, line.minutes, to_bits(line.cost)],
            at,
            out,
        );
    }
}

// Each line in the book's order, into a table of zeros: the first of an activity counts, or its last.
pub fn take_lines(book: &[u8], list: Section, activities: u64, last: bool, out: &mut [u64])
    requires lines { table.IsLines book.now list activities }
    requires out_len { (length out.old ≡ activities * 5) × table.Zeros out.old }
    ensures { out.new ≡ table.lines_table last (content book.now) }
{
    let mut next = list.first;
    for _ in 0..list.count {
        let line = read_baseline_line(book, next, activities);
        take_line(line, last, out);
        next = line.next;
    }
}
