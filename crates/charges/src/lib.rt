// What is charged to the activities, as flat tables: the book's assignments and its expenses.
#![tactic(auto)]

pub mod assigned;
pub mod expensed;
