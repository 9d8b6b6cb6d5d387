// Budgets, and lists of amounts.
ghost use Rattle.std.specs.Prelude.{◌≡◌, List, [], ◌∷◌, ℕ, ◌≤◌, ◌<◌, Option};
ghost use Rattle.format.specs.Field as kind;
ghost use Rattle.format.specs.Codec.{O};
ghost use Rattle.format.specs.Format as layout;
ghost use Rattle.sections.specs.Sections.{IsList, IsAlike, budget_of, mark_of};

use crate::Section;
use fields::kinds::{amount, field, optional_index};
use format::{Pos, Reason};
use records::budgets::read_budget_head;

// A budget, its plan by where it is.
#[derive(Clone, Copy)]
pub struct Budget {
    pub activity: Option<u64>,
    pub original: i64,
    pub plan: Section,
    pub next: Pos,
}

// Up to `most` amounts: a loop of their own, since a book may hold many and `skip` asks of each what it is.
pub fn read_amounts(book: &[u8], at: Pos, most: u64) -> Section
    requires { most < 1000 }
    ensures { IsAlike 0 most layout.amount book.now at result }
{
    let lead = field(book, at, 0, most + 1, Reason::CountOutOfRange);
    let first = lead.next;
    let count = lead.value;
    let mut next = first;
    for _ in 0..count {
        next = amount(book, next).next;
    }
    Section { count, first, next }
}

// A budget of a book with so many activities. `new`: no budget before it names what it names.
pub fn read_budget(book: &[u8], at: Pos, activities: u64, new: bool) -> Budget
    ensures { (before : List (Option ℕ)) → new ≡ layout.is_new before ((O (kind.index activities)).read book.now at).0 → (budget_of book.now result, result.next) ≡ (layout.budget activities before).read book.now at }
{
    let head = read_budget_head(book, at, activities, new);
    let plan = read_amounts(book, head.next, 120);
    Budget {
        activity: head.activity,
        original: head.original,
        plan,
        next: plan.next,
    }
}

// Where what is named has its mark: an activity at its index, none behind all of them.
pub fn mark_of(activity: Option<u64>) -> usize
    ensures { result ≡ mark_of activity }
{
    match activity {
        None => 500,
        Some(a) => { if a < 500 { a as usize } else { 500 } }
    }
}

// Up to 501 budgets of a book with so many activities, no two of which name the same.
pub fn read_budgets(book: &[u8], at: Pos, activities: u64) -> Section
    requires { activities ≤ 500 }
    ensures { IsList 0 501 (layout.budget activities) (λ before b. b.activity ∷ before) [] book.now at result }
{
    let lead = field(book, at, 0, 502, Reason::CountOutOfRange);
    let first = lead.next;
    let count = lead.value;
    if count == 0 {
        return Section {
            count,
            first,
            next: first,
        };
    }
    let mut marks = [0u64; 501];
    let mut next = first;
    for _ in 0..count {
        let named = optional_index(book, next, activities);
        let k = mark_of(named.value);
        let b = read_budget(book, next, activities, marks[k] == 0);
        let j = mark_of(b.activity);
        marks[j] = 1;
        next = b.next;
    }
    Section { count, first, next }
}
