// The lists of the book: each with its count, its elements in a row, and where reading goes on behind it.
#![tactic(auto)]

use format::Pos;

pub mod budgets;
pub mod calendars;
pub mod elements;
pub mod resources;

// A list: the count that leads it, where its first element begins, and where reading goes on after its last.
#[derive(Clone, Copy)]
pub struct Section {
    pub count: u64,
    pub first: Pos,
    pub next: Pos,
}
