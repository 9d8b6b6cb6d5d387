// The fields of the book: what each kind of field reads as, and where reading goes on.
#![tactic(auto)]

use format::Pos;

pub mod kinds;
pub mod numbers;

// What was read, 0 or nothing where it was refused, and where reading goes on.
#[derive(Clone, Copy)]
pub struct Read<T> {
    pub value: T,
    pub next: Pos,
}
