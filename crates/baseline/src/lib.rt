// What planned value is made of, without any date: the lines of the baseline, the listed spans of the activities, the budgets of the leaves.
#![tactic(auto)]

pub mod lines;
pub mod listed;
