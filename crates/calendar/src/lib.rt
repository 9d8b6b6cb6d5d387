// The tables of a calendar: which dates work, and how many work before each. A date's entry is at the date less the table's base, its first date.
#![tactic(auto)]

pub mod all;
pub mod counts;
pub mod days;
pub mod marks;
pub mod usual;
