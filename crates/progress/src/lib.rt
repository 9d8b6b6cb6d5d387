// How a project stands at a status date: earned value of the activities, in outline and of the project, how much of an activity is done.
#![tactic(auto)]

pub mod indices;
pub mod outline;
pub mod own;
pub mod performance;
pub mod project;
pub mod rolled;
