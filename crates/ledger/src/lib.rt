// The table of accounts, which the budgets and the log make, and the budget lines from it.
#![tactic(auto)]

ghost use Rattle.std.specs.Prelude.{◌≡◌, ℕ, ◌≤◌, ◌<◌, pos, length, get_or, replicate};
ghost use Rattle.format.specs.Book.{Book};
ghost use Rattle.format.specs.Verdict.{content};
ghost use Rattle.model.specs.Tree as definition;
ghost use Rattle.tree.specs.Figures.{MarksLeaves};
ghost use Rattle.ledger.specs.Arguments.{IsBudgets, IsLog, AreParents, IsBooked, IsHanded};

use crate::budgets::take_budgets;
use crate::changes::take_changes;
use crate::distribution::distribute;
use crate::marks::mark_parents;
use book::layout::Ledger;

pub mod accounts;
pub mod amounts;
pub mod budgets;
pub mod changes;
pub mod distribution;
pub mod lines;
pub mod marks;

// The budgets and the log of a book with so many activities, read once into an empty table. Who is named is marked.
pub fn take_ledger(
    book: &[u8],
    activities: u64,
    ledger: Ledger,
    accounts: &mut [i64; 3006],
    marks: &mut [u64; 501],
)
    requires budgets { IsBudgets book.now ledger.budgets activities × IsLog book.now ledger.log activities }
    requires accounts_value { (accounts.old ≡ replicate 3006 (pos 0)) × (marks.old ≡ replicate 501 0) }
    ensures { IsBooked (content book.now) accounts.new marks.new }
{
    take_budgets(book, ledger.budgets, activities, accounts, marks);
    take_changes(book, ledger.log, activities, accounts, marks);
}

// Who is a parent is marked too, and those that are marked give their current budgets to their parents.
pub fn hand_up(
    parents: &[u64],
    leaves: &[u64; 500],
    accounts: &mut [i64; 3006],
    marks: &mut [u64; 501],
)
    requires { (length parents.now ≤ 500) × ((i : ℕ) → i < length parents.now → get_or parents.now i 0 < 501) }
    ensures { (book : Book) → AreParents book parents.now → MarksLeaves leaves.now (definition.parents book) → IsBooked book accounts.old marks.old → IsHanded book accounts.new marks.new }
{
    mark_parents(leaves, parents.len(), marks);
    distribute(parents, marks, accounts);
}
