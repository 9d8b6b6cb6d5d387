// A row of earned value: of one activity from a table of figures, of the project from the leaves' sums, and as it is answered.
#![tactic(auto)]

ghost use Rattle.std.specs.Prelude.{ℕ, ◌+◌, ◌*◌, ◌≤◌, ◌<◌, ◌≡◌, map, length, option_map};
ghost use Rattle.std.proofs.lemmas.List.Edits.{sets};
ghost use Rattle.format.specs.Book.{Book};
ghost use Rattle.money.specs.Words.{bits};
ghost use Rattle.model.specs.Tree.{parents};
ghost use Rattle.model.specs.Earned.{project_earned, spent_in};
ghost use Rattle.tree.specs.Figures.{MarksLeaves};
ghost use Rattle.tree.specs.Tables.{earned_figures, own_values, rolled_values};
ghost use Rattle.rows.specs.Rows.{numbers};
ghost use Rattle.answers.specs.Rows.{earned_width, earned_row, earned_value_rows};
ghost use Rattle.value.specs.Figures.{figures, earned_in};

use answers::EARNED_WIDTH;
use model::Earned;
use money::scale::spent;
use money::words::to_bits;
use rows::put_optional;
use tree::table::{VALUE_WIDTH, leaf_row_sum};

pub mod lines;

// The figures of activity i.
pub fn earned_at(table: &[i64], i: usize) -> Earned
    requires { i * figures + 4 < length table.now }
    ensures { result ≡ earned_in table.now i }
{
    let at = i * VALUE_WIDTH;
    Earned {
        budget: table[at],
        planned: table[at + 1],
        earned: table[at + 2],
        actual: table[at + 3],
        remaining: table[at + 4],
    }
}

// The five figures, from a place on.
fn put_figures(e: Earned, at: usize, out: &mut [u64])
    requires { at + figures ≤ length out.old }
    ensures { out.new ≡ sets out.old at (map bits (earned_figures e)) }
{
    out[at] = to_bits(e.budget);
    out[at + 1] = to_bits(e.planned);
    out[at + 2] = to_bits(e.earned);
    out[at + 3] = to_bits(e.actual);
    out[at + 4] = to_bits(e.remaining);
}

// What is spent of the row's own budget, in two's complement.
fn spent_bits(e: Earned) -> Option<u64>
    ensures { result ≡ option_map bits (spent_in e) }
{
    match spent(e.actual, e.budget) {
        None => None,
        Some(share) => Some(to_bits(share)),
    }
}

// The numbers of a row, from a place on.
pub fn put_earned(e: Earned, at: usize, out: &mut [u64])
    requires { at + earned_width ≤ length out.old }
    ensures { out.new ≡ sets out.old at (earned_row e) }
{
    put_figures(e, at, out);
    put_optional(spent_bits(e), at + VALUE_WIDTH, out);
}

// The rows of n activities, from a table of their figures.
pub fn put_values(table: &[i64], n: usize, out: &mut [u64])
    requires { (length table.now ≡ n * figures) × (length out.old ≡ n * earned_width) }
    ensures { (book : Book) (date : ℕ) → length book.activities ≡ n → table.now ≡ rolled_values book date → out.new ≡ numbers (earned_value_rows date book) }
{
    for i in 0..n {
        put_earned(earned_at(table, i), i * EARNED_WIDTH, out);
    }
}

// The figures of the project: those of the leaves, which are not marked, added up.
pub fn sums(marks: &[u64], own: &[i64]) -> Earned
    requires { length own.now ≤ length marks.now * figures }
    ensures { (book : Book) (date : ℕ) → MarksLeaves marks.now (parents book) → own.now ≡ own_values book date → result ≡ project_earned book date }
{
    Earned {
        budget: leaf_row_sum(marks, VALUE_WIDTH, 0, own),
        planned: leaf_row_sum(marks, VALUE_WIDTH, 1, own),
        earned: leaf_row_sum(marks, VALUE_WIDTH, 2, own),
        actual: leaf_row_sum(marks, VALUE_WIDTH, 3, own),
        remaining: leaf_row_sum(marks, VALUE_WIDTH, 4, own),
    }
}
