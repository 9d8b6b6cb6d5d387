// The outline of the tree of activities over slices: the way down from the tops, two numbers for each line.
#![tactic(auto)]

ghost use Rattle.std.specs.Prelude.{◌≡◌, ◌+◌, ◌*◌, ◌<◌, length, replicate};
ghost use mathlib.Core.List.{[], ◌∷◌, flat_map};
ghost use Rattle.std.proofs.lemmas.List.Edits.{sets};
ghost use Rattle.model.specs.Outline.{outline};
ghost use Rattle.tree.specs.Figures.{parents_of};
ghost use Rattle.descent.specs.Links.{place_of, IsLinksOf, line_numbers, lines_below, Ready, Stands};

// The numbers of a line: its level and its index.
pub const LINE_WIDTH: usize = 2;

// Where an activity hangs: on its parent, or behind all.
fn place_of(parent: u64, count: u64) -> u64
    ensures { result ≡ place_of count parent }
{
    parent.min(count)
}

// The columns of the tree, from the last activity to the first, so that the children are met in index order: the first child
// of each activity, behind them the first top, and what comes next under the same parent.
fn link(parents: &[u64], first: &mut [u64], next: &mut [u64])
    requires { (length first.old ≡ length parents.now + 1) × (length next.old ≡ length parents.now) }
    ensures { IsLinksOf parents.now first.new next.new }
{
    let count = parents.len() as u64;
    first.fill(count);
    for i in (0..parents.len()).rev() {
        let place = place_of(parents[i], count) as usize;
        next[i] = first[place];
        first[place] = i as u64;
    }
}

// Puts the numbers of line k.
fn put_line(level: u64, index: u64, k: u64, lines: &mut [u64])
    requires { k * 2 + 1 < length lines.old }
    ensures { lines.new ≡ sets lines.old (k * 2) (level ∷ index ∷ []) }
{
    let at = k as usize * LINE_WIDTH;
    lines[at] = level;
    lines[at + 1] = index;
}

// The branches of the children of p, or of the tops where p is the place behind all, at most `left` levels of them: each line
// behind those made `from` before. The lines made then.
fn down(
    first: &[u64],
    next: &[u64],
    left: u64,
    level: u64,
    p: u64,
    from: u64,
    lines: &mut [u64],
) -> u64
    requires { Ready first.now next.now lines.old left level p from }
    ensures count { result ≡ from + length (lines_below first.now next.now left level p) }
    ensures lines { lines.new ≡ sets lines.old (from * 2) (flat_map line_numbers (lines_below first.now next.now left level p)) }
{
    if left == 0 {
        return from;
    }
    let count = next.len() as u64;
    let mut made = from;
    let mut i = first[p as usize];
    while i < count {
        put_line(level, i, made, lines);
        made = down(first, next, left - 1, level + 1, i, made + 1, lines);
        i = next[i as usize];
    }
    made
}

// The outline of these parents, with slices for the columns: its lines, and how many they are.
pub fn outline(parents: &[u64], first: &mut [u64], next: &mut [u64], lines: &mut [u64]) -> u64
    requires { (length first.old ≡ length parents.now + 1) × (length next.old ≡ length parents.now) × (length lines.old ≡ length parents.now * 2) }
    ensures { Stands (outline (parents_of parents.now)) result lines.new }
{
    link(parents, first, next);
    let count = parents.len() as u64;
    down(first, next, count, 1, count, 0, lines)
}
