// What the activities themselves cost: their assignments and expenses, and their actual costs and units by kind of resource; what they cost with all below them; the calls that answer with it.
#![tactic(auto)]

pub mod calls;
pub mod own;
pub mod rolled;
