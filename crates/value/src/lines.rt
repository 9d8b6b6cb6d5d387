// The rows of the outline: its lines, each with the row of earned value of its activity.
ghost use Rattle.std.specs.Prelude.{ℕ, ◌*◌, ◌+◌, ◌≤◌, ◌≡◌, length};
ghost use mathlib.Core.List.{◌∷◌, flat_map};
ghost use Rattle.std.proofs.lemmas.List.Edits.{sets};
ghost use Rattle.lists.specs.Lists.{span};
ghost use Rattle.format.specs.Book.{Book};
ghost use Rattle.model.specs.Tree as tree;
ghost use Rattle.model.specs.Outline.{outline};
ghost use Rattle.tree.specs.Figures.{parents_of};
ghost use Rattle.tree.specs.Tables.{rolled_values};
ghost use Rattle.descent.specs.Links.{Stands};
ghost use Rattle.answers.specs.Rows.{earned_row, outline_width, outline_rows};
ghost use Rattle.answers.specs.Calls.{Puts};
ghost use Rattle.value.specs.Figures.{outlined_in, HasFigures, HasColumns};

use crate::{earned_at, put_earned};
use answers::{OUTLINE_WIDTH, Reply, TOO_SHORT};
use descent::{LINE_WIDTH, outline};
use model::Earned;

// The numbers of a row, from a place on.
fn put_line(level: u64, index: u64, e: Earned, at: usize, out: &mut [u64])
    requires { at + outline_width ≤ length out.old }
    ensures { out.new ≡ sets out.old at (level ∷ index ∷ earned_row e) }
{
    out[at] = level;
    out[at + 1] = index;
    put_earned(e, at + 2, out);
}

// The rows of so many lines, from a table of the activities' figures.
fn put_lines(table: &[i64], lines: &[u64], count: usize, out: &mut [u64])
    requires has_figures { HasFigures table.now lines.now count }
    requires out_len { length out.old ≡ count * outline_width }
    ensures { out.new ≡ flat_map (outlined_in table.now lines.now) (span 0 count) }
{
    for k in 0..count {
        let index = lines[k * LINE_WIDTH + 1];
        let e = earned_at(table, index as usize);
        put_line(lines[k * LINE_WIDTH], index, e, k * OUTLINE_WIDTH, out);
    }
}

// The rows, where they fit.
fn put_fitting(table: &[i64], lines: &[u64], count: usize, out: &mut [u64]) -> Reply
    requires { HasFigures table.now lines.now count }
    ensures { (book : Book) (date : ℕ) → Stands (outline (tree.parents book)) count lines.now → table.now ≡ rolled_values book date → Puts (outline_rows date book) out.old result out.new }
{
    let n = count * OUTLINE_WIDTH;
    if out.len() < n {
        return Err(TOO_SHORT);
    }
    put_lines(table, lines, count, &mut out[..n]);
    Ok(count as u64)
}

// The rows of the outline of these parents, where they fit, with slices for the tree's columns and for the lines.
pub fn put_outline(
    parents: &[u64],
    table: &[i64],
    first: &mut [u64],
    next: &mut [u64],
    lines: &mut [u64],
    out: &mut [u64],
) -> Reply
    requires { HasColumns (length parents.now) table.now first.old next.old lines.old }
    ensures { (book : Book) (date : ℕ) → parents_of parents.now ≡ tree.parents book → table.now ≡ rolled_values book date → Puts (outline_rows date book) out.old result out.new }
{
    let count = outline(parents, first, next, lines);
    put_fitting(table, lines, count as usize, out)
}
