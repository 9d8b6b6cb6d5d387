// Tables by date: the points that amounts laid onto them make, by day and by month, and their running total.
#![tactic(auto)]

pub mod bymonth;
pub mod points;
pub mod sizes;
pub mod totals;
