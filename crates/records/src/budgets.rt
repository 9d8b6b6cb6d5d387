// Budgets: what leads one, and the log of their changes.
ghost use Rattle.std.specs.Prelude.{◌≡◌};
ghost use Rattle.format.specs.Field as kind;
ghost use Rattle.format.specs.Reader.{tested};
ghost use Rattle.format.specs.Codec.{O, test, ◌&◌};
ghost use Rattle.format.specs.Format as layout;
ghost use Rattle.records.specs.Decoded.{budget_change_of};

use fields::Read;
use fields::kinds::{amount, field, optional_index, place};
use format::{ChangeStatus, Pos, Reason, Refusal};

// What leads a budget. Its plan follows.
#[derive(Clone, Copy)]
pub struct BudgetHead {
    pub activity: Option<u64>,
    pub original: i64,
    pub next: Pos,
}

#[derive(Clone, Copy)]
pub struct BudgetChange {
    pub activity: Option<u64>,
    pub amount: i64,
    pub status: ChangeStatus,
    pub next: Pos,
}

// What a budget names, read at `place`, where no budget before it names the same; else refusal 6.
fn named_once(named: Read<Option<u64>>, new: bool, place: usize) -> Read<Option<u64>>
    ensures { (result.value, result.next) ≡ tested None Reason.OutOfOrder place new (named.value, named.next) }
{
    match named.next {
        Ok(_) => {
            if new {
                return named;
            }
            Read {
                value: None,
                next: Err(Refusal {
                    reason: Reason::OutOfOrder,
                    place,
                }),
            }
        }
        Err(_) => named,
    }
}

// What leads a budget of a book with so many activities. `new`: no budget before it names what it names.
pub fn read_budget_head(book: &[u8], at: Pos, activities: u64, new: bool) -> BudgetHead
    ensures { ((result.activity, result.original), result.next)
        ≡ (test None (λ a. new) Reason.OutOfOrder (O (kind.index activities)) & layout.amount).read book.now at }
{
    let named = optional_index(book, at, activities);
    let activity = named_once(named, new, place(at));
    let original = amount(book, activity.next);
    BudgetHead {
        activity: activity.value,
        original: original.value,
        next: original.next,
    }
}

// A line of the budget log of a book with so many activities.
pub fn read_budget_change(book: &[u8], at: Pos, activities: u64) -> BudgetChange
    ensures { (budget_change_of result, result.next) ≡ (layout.budget_change activities).read book.now at }
{
    let activity = optional_index(book, at, activities);
    let change = amount(book, activity.next);
    let status = field(book, change.next, 0, 3, Reason::OutOfRange);
    BudgetChange {
        activity: activity.value,
        amount: change.value,
        status: ChangeStatus::from(status.value),
        next: status.next,
    }
}
