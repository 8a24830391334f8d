// The setters of a record.
#![tactic(auto)]

pub mod choice;
pub mod fields;
pub mod setter;
