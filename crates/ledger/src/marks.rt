// Who has a line.
ghost use Rattle.std.specs.Prelude.{◌≡◌, ◌≤◌, length};
ghost use mathlib.Core.List.{foldl};
ghost use Rattle.ledger.specs.Accounts.{marked_by, marked_of};

// Marks the parents too: those of the first that another array marks.
pub fn mark_parents(parents: &[u64; 500], count: usize, marks: &mut [u64; 501])
    requires { count ≤ 500 }
    ensures { marks.new ≡ foldl (marked_by (λ i. i)) marks.old (marked_of parents.now count) }
{
    for i in 0..count {
        if parents[i] != 0 {
            marks[i] = 1;
        }
    }
}

// How many of the first are marked.
pub fn count_marked(marks: &[u64; 501], count: usize) -> u64
    requires { count ≤ 500 }
    ensures { result ≡ length (marked_of marks.now count) }
{
    let mut found: u64 = 0;
    for i in 0..count {
        if marks[i] != 0 {
            found += 1;
        }
    }
    found
}
