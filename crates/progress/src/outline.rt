// The outline at a date: the tree's lines, each with the row of earned value of its activity.
ghost use Rattle.std.specs.Prelude.{ℕ, ◌+◌, ◌*◌, ◌≤◌, ◌≡◌, length};
ghost use Rattle.format.specs.Book.{Book};
ghost use Rattle.format.specs.Verdict.{content};
ghost use Rattle.model.specs.Tree as tree;
ghost use Rattle.tree.specs.Figures.{parents_of};
ghost use Rattle.tree.specs.Tables.{rolled_values};
ghost use Rattle.answers.specs.Rows.{outline_rows};
ghost use Rattle.answers.specs.Calls.{Puts};
ghost use Rattle.answers.specs.Opened.{IsOpened};

use crate::rolled::roll_tree;
use activities::schedule::FEW;
use answers::Reply;
use answers::open::Opened;
use descent::LINE_WIDTH;
use tree::table::VALUE_WIDTH;
use value::lines::put_outline;

// The rows from the parents and the rolled figures, with room for the tree's columns and the lines.
#[inline(never)]
fn list_sized<const FIRST: usize, const NEXT: usize, const LINES: usize>(
    parents: &[u64],
    rolled: &[i64],
    out: &mut [u64],
) -> Reply
    requires room { (length parents.now + 1 ≤ FIRST) × (length parents.now ≤ NEXT) × (length parents.now * 2 ≤ LINES) }
    requires most { (FIRST ≤ 501) × (NEXT ≤ 500) × (LINES ≤ 1000) }
    requires rolled_len { length rolled.now ≡ length parents.now * 5 }
    ensures { (book : Book) (date : ℕ) → parents_of parents.now ≡ tree.parents book → rolled.now ≡ rolled_values book date → Puts (outline_rows date book) out.old result out.new }
{
    let mut first = [0u64; FIRST];
    let mut next = [0u64; NEXT];
    let mut lines = [0u64; LINES];
    let n = parents.len();
    put_outline(
        parents,
        rolled,
        &mut first[..n + 1],
        &mut next[..n],
        &mut lines[..n * LINE_WIDTH],
        out,
    )
}

// The same: little room for few activities.
fn list_rows(parents: &[u64], rolled: &[i64], out: &mut [u64]) -> Reply
    requires { (length parents.now ≤ 500) × (length rolled.now ≡ length parents.now * 5) }
    ensures { (book : Book) (date : ℕ) → parents_of parents.now ≡ tree.parents book → rolled.now ≡ rolled_values book date → Puts (outline_rows date book) out.old result out.new }
{
    if parents.len() <= FEW {
        return list_sized::<33, 32, 64>(parents, rolled, out);
    }
    list_sized::<501, 500, 1000>(parents, rolled, out)
}

// The rows, from tables to work in.
fn roll_rows(
    book: &[u8],
    opened: Opened,
    date: u64,
    parents: &mut [u64],
    rolled: &mut [i64],
    out: &mut [u64],
) -> Reply
    requires opened { IsOpened book.now opened }
    requires parents_len { (length parents.old ≡ opened.plan.activities.count) × (length rolled.old ≡ opened.plan.activities.count * 5) }
    ensures { Puts (outline_rows date (content book.now)) out.old result out.new }
{
    roll_tree(book, opened, date, parents, rolled);
    list_rows(parents, rolled, out)
}

// The same, with tables of its own.
#[inline(never)]
fn roll_sized<const PARENTS: usize, const ROLLED: usize>(
    book: &[u8],
    opened: Opened,
    date: u64,
    out: &mut [u64],
) -> Reply
    requires opened { IsOpened book.now opened }
    requires room { (opened.plan.activities.count ≤ PARENTS) × (opened.plan.activities.count * 5 ≤ ROLLED) }
    requires most { (PARENTS ≤ 500) × (ROLLED ≤ 2500) }
    ensures { Puts (outline_rows date (content book.now)) out.old result out.new }
{
    let mut parents = [0u64; PARENTS];
    let mut rolled = [0i64; ROLLED];
    let n = opened.plan.activities.count as usize;
    roll_rows(
        book,
        opened,
        date,
        &mut parents[..n],
        &mut rolled[..n * VALUE_WIDTH],
        out,
    )
}

// A row for each line of the outline, where the rows fit: small tables for few activities.
pub fn outline_of(book: &[u8], opened: Opened, date: u64, out: &mut [u64]) -> Reply
    requires { IsOpened book.now opened }
    ensures { Puts (outline_rows date (content book.now)) out.old result out.new }
{
    if opened.plan.activities.count <= FEW as u64 {
        return roll_sized::<32, 160>(book, opened, date, out);
    }
    roll_sized::<500, 2500>(book, opened, date, out)
}
