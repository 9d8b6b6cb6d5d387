// Amounts laid onto a table by date: on one date, or shared over the working dates of a span.
#![tactic(auto)]

pub mod days;
pub mod deal;
pub mod spread;
pub mod table;
