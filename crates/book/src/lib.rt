// The book: where each of its lists begins and ends, its layout, and the verdict on it.
#![tactic(auto)]

pub mod layout;
