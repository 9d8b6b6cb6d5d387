// The activities after the verdict: their schedule, columns of it, and the stretch of dates that their spans take.
#![tactic(auto)]

pub mod schedule;
pub mod stretches;
pub mod ways;
