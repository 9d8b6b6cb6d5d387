// The records of the book, each read whole: its fields, decoded, and where reading goes on. Those of the long lists are always
// inlined: a list that is only walked over then builds none of its records.
#![tactic(auto)]

pub mod activities;
pub mod budgets;
pub mod calendars;
pub mod periods;
pub mod resources;
pub mod techniques;
