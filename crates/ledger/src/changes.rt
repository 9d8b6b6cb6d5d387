// The log, taken into the table of accounts: the changes by status, and who has a line in it.
ghost use Rattle.std.specs.Prelude.{◌≡◌};
ghost use mathlib.Core.List.{foldl};
ghost use Rattle.format.specs.Verdict.{content};
ghost use Rattle.records.specs.Decoded.{budget_change_of};
ghost use Rattle.ledger.specs.Accounts.{change_place, change_taken, marked_by};
ghost use Rattle.ledger.specs.Arguments.{IsLog};

use crate::accounts::{PENDING, account_number, add_figure};
use records::budgets::{BudgetChange, read_budget_change};
use sections::Section;

// One change, in its account's row.
fn take_change(change: BudgetChange, accounts: &mut [i64; 3006])
    ensures { accounts.new ≡ change_taken accounts.old (budget_change_of change) }
{
    let k = account_number(change.activity);
    let figure = PENDING + change.status as usize;
    add_figure(k, figure, change.amount, accounts);
}

// All of them, in a book with so many activities.
pub fn take_changes(
    book: &[u8],
    list: Section,
    activities: u64,
    accounts: &mut [i64; 3006],
    marks: &mut [u64; 501],
)
    requires { IsLog book.now list activities }
    ensures table { accounts.new ≡ foldl change_taken accounts.old (content book.now).log }
    ensures named { marks.new ≡ foldl (marked_by change_place) marks.old (content book.now).log }
{
    let mut next = list.first;
    for _ in 0..list.count {
        let change = read_budget_change(book, next, activities);
        take_change(change, accounts);
        let account = change.activity;
        let k = account_number(account);
        marks[k] = 1;
        next = change.next;
    }
}
