// Twelve-month sums of the points of a table by date, as rows: for each month from the first to the last that has a point, the sum of its points and of those of the eleven months before it.
#![tactic(auto)]

pub mod listed;
pub mod sums;
pub mod window;
pub mod writing;

// The dates from one to another of a table by date that begins at `base`.
#[derive(Clone, Copy)]
pub struct Reach {
    pub base: u64,
    pub from: u64,
    pub to: u64,
}
