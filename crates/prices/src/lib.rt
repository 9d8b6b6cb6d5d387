// What units of a resource cost: the price on a day, the amounts of many days at one price, and those of a span of dates.
#![tactic(auto)]

pub mod days;
pub mod effect;
pub mod rates;
pub mod span;
