// The distribution: the current budget of each activity that has a line goes to its parent, else to the project.
ghost use Rattle.std.specs.Prelude.{◌≡◌, ℕ, ◌≤◌, ◌<◌, length, get_or};
ghost use mathlib.Core.List.{foldl};
ghost use Rattle.ledger.specs.Accounts.{marked_of, given_up};

use crate::accounts::{DISTRIBUTED, add_figure, current};

// In index order. The parents are numbers of accounts.
pub fn distribute(parents: &[u64], marks: &[u64; 501], accounts: &mut [i64; 3006])
    requires { (length parents.now ≤ 500) × ((i : ℕ) → i < length parents.now → get_or parents.now i 0 < 501) }
    ensures { accounts.new ≡ foldl (given_up parents.now accounts.old) accounts.old (marked_of marks.now (length parents.now)) }
{
    for i in 0..parents.len() {
        if marks[i] != 0 {
            let given = current(accounts, i);
            add_figure(parents[i] as usize, DISTRIBUTED, given, accounts);
        }
    }
}
