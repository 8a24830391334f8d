// The English names of months and of days of the week.
#![tactic(auto)]

pub mod names;
pub mod weekday;
