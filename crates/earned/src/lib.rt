// Earned value: how much of each activity is done, by the technique of the book, and the activities' own figures at a date.
#![tactic(auto)]

pub mod dated;
pub mod measured;
pub mod performance;
pub mod units;
