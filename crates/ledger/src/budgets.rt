// The budgets, taken into the table of accounts: what was first approved, the plan added up, and who has one.
ghost use Rattle.std.specs.Prelude.{◌≡◌, replicate};
ghost use mathlib.Core.List.{foldl};
ghost use Rattle.format.specs.Verdict.{content};
ghost use Rattle.sections.specs.Sections.{budget_of};
ghost use Rattle.ledger.specs.Accounts.{budget_place, budget_taken, marked_by};
ghost use Rattle.ledger.specs.Arguments.{IsBudgets, IsBudgetAt};

use crate::accounts::account_number;
use crate::amounts::sum_amounts;
use fields::kinds::optional_index;
use format::Pos;
use sections::Section;
use sections::budgets::{Budget, read_budget};

// The budget that begins here. What a budget before names is marked.
pub fn next_budget(book: &[u8], at: Pos, activities: u64, marks: &[u64; 501]) -> Budget
    ensures { IsBudgetAt book.now activities marks.now at result }
{
    let named = optional_index(book, at, activities);
    let name = named.value;
    let k = account_number(name);
    read_budget(book, at, activities, marks[k] == 0)
}

// One budget, in its account's row.
fn take_budget(book: &[u8], budget: Budget, accounts: &mut [i64; 3006])
    ensures { accounts.new ≡ budget_taken accounts.old (budget_of book.now budget) }
{
    let activity = budget.activity;
    let plan = budget.plan;
    let original = budget.original;
    let at = account_number(activity) * 6;
    accounts[at] = original;
    accounts[at + 1] = sum_amounts(book, plan);
}

// All of them, in a book with so many activities.
pub fn take_budgets(
    book: &[u8],
    list: Section,
    activities: u64,
    accounts: &mut [i64; 3006],
    marks: &mut [u64; 501],
)
    requires budgets { IsBudgets book.now list activities }
    requires marks_value { marks.old ≡ replicate 501 0 }
    ensures table { accounts.new ≡ foldl budget_taken accounts.old (content book.now).budgets }
    ensures named { marks.new ≡ foldl (marked_by budget_place) marks.old (content book.now).budgets }
{
    let mut next = list.first;
    for _ in 0..list.count {
        let b = next_budget(book, next, activities, marks);
        take_budget(book, b, accounts);
        let account = b.activity;
        let k = account_number(account);
        marks[k] = 1;
        next = b.next;
    }
}
