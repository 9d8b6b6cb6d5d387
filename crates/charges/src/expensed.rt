// The book's expenses: what each is booked to, how it accrues, and its amounts three ways.
ghost use Rattle.std.specs.Prelude.{◌≡◌, ◌+◌, ◌*◌, ◌<◌, length};
ghost use mathlib.Core.List.{flat_map};
ghost use Rattle.std.proofs.lemmas.List.Edits.{sets};
ghost use Rattle.format.specs.Enumeration.{accrual_number};
ghost use Rattle.format.specs.Format as layout;
ghost use Rattle.format.specs.Verdict.{content};
ghost use Rattle.records.specs.Decoded.{expense_of};
ghost use Rattle.sections.specs.Sections.{alike_in};
ghost use Rattle.book.specs.Plan.{IsPlanOf};
ghost use Rattle.charges.specs.Expensed.{accrual_row, amounts_row, AreExpensed};

use book::layout::Plan;
use records::activities::{Expense, read_expense};
use rows::put_row;
use sections::Section;

// The expenses, of a book with so many activities.
fn fill_expenses(
    book: &[u8],
    list: Section,
    activities: u64,
    accruals: &mut [u64],
    amounts: &mut [i64],
)
    requires { (length accruals.old ≡ list.count * 2) × (length amounts.old ≡ list.count * 3) }
    ensures booked { accruals.new ≡ flat_map accrual_row (alike_in (layout.expense activities) book.now list) }
    ensures counted { amounts.new ≡ flat_map amounts_row (alike_in (layout.expense activities) book.now list) }
{
    let mut next = list.first;
    for i in 0..list.count {
        let e = read_expense(book, next, activities);
        put_row(&[e.activity, e.accrual as u64], i as usize * 2, accruals);
        put_row(&[e.planned, e.actual, e.remaining], i as usize * 3, amounts);
        next = e.next;
    }
}

// The expenses of the plan of an accepted book.
pub fn fill_expensed(
    book: &[u8],
    data_date: Option<u64>,
    plan: Plan,
    accruals: &mut [u64],
    amounts: &mut [i64],
)
    requires plan_of { IsPlanOf book.now data_date plan }
    requires accruals_len { (length accruals.old ≡ plan.expenses.count * 2) × (length amounts.old ≡ plan.expenses.count * 3) }
    ensures { AreExpensed (content book.now) accruals.new amounts.new }
{
    fill_expenses(
        book,
        plan.expenses,
        plan.activities.count,
        accruals,
        amounts,
    );
}
