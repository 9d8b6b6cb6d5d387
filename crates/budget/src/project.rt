// The project's own budget: what was first approved, and the approved changes.
ghost use Rattle.std.specs.Prelude.{◌≡◌, replicate};
ghost use Rattle.format.specs.declared.ChangeStatus.TheVariants.{Approved};
ghost use Rattle.format.specs.Format.{names};
ghost use Rattle.format.specs.Verdict.{content};
ghost use Rattle.records.specs.Decoded.{budget_change_of};
ghost use Rattle.book.specs.Plan.{IsPlanOf, IsLedgerOf};
ghost use Rattle.model.specs.Budgets.{same_status, budget_for, changes, current_of};
ghost use Rattle.budget.specs.Project.{added_to};
ghost use Rattle.ledger.specs.Arguments.{IsBudgets, IsLog};

use book::layout::{Ledger, Plan};
use format::ChangeStatus;
use ledger::accounts::account_number;
use ledger::budgets::next_budget;
use money::sums::saturating_add;
use records::budgets::{BudgetChange, read_budget_change};
use sections::Section;

fn is_project(account: Option<u64>) -> bool
    ensures { result ≡ names account None }
{
    match account {
        None => true,
        Some(_) => false,
    }
}

fn is_approved(status: ChangeStatus) -> bool
    ensures { result ≡ same_status status Approved }
{
    matches!(status, ChangeStatus::Approved)
}

// What was first approved for it. Those with a budget before its own are marked.
fn project_original(book: &[u8], list: Section, activities: u64, marks: &mut [u64; 501]) -> i64
    requires budgets { IsBudgets book.now list activities }
    requires marks_value { marks.old ≡ replicate 501 0 }
    ensures { result ≡ (budget_for (content book.now) None).original }
{
    let count = list.count;
    let mut next = list.first;
    for _ in 0..count {
        let b = next_budget(book, next, activities, marks);
        if is_project(b.activity) {
            return b.original;
        }
        marks[account_number(b.activity)] = 1;
        next = b.next;
    }
    0
}

// The sum with a change added, if it is an approved one of the project.
fn add_change(sum: i64, change: BudgetChange) -> i64
    ensures { result ≡ added_to None Approved sum (budget_change_of change) }
{
    if is_project(change.activity) {
        if is_approved(change.status) {
            return saturating_add(sum, change.amount);
        }
    }
    sum
}

// Its approved changes, added up.
fn project_changes(book: &[u8], list: Section, activities: u64) -> i64
    requires { IsLog book.now list activities }
    ensures { result ≡ changes (content book.now) Approved None }
{
    let count = list.count;
    let mut next = list.first;
    let mut sum: i64 = 0;
    for _ in 0..count {
        let change = read_budget_change(book, next, activities);
        sum = add_change(sum, change);
        next = change.next;
    }
    sum
}

// Its current budget.
pub fn project_current(book: &[u8], date: Option<u64>, plan: Plan, ledger: Ledger) -> i64
    requires plan_of { IsPlanOf book.now date plan }
    requires ledger_of { IsLedgerOf book.now plan ledger }
    ensures { result ≡ current_of (content book.now) None }
{
    let mut marks = [0u64; 501];
    let original = project_original(book, ledger.budgets, plan.activities.count, &mut marks);
    let changed = project_changes(book, ledger.log, plan.activities.count);
    saturating_add(original, changed)
}
