// Money: signed whole numbers of 64 bits, in hundredths of the currency.
#![tactic(auto)]

pub mod costs;
pub mod exact;
pub mod scale;
pub mod shares;
pub mod sums;
pub mod words;
