// Fields, refusals, and the interface of what collects values for fields.
#![tactic(auto)]

pub mod collector;
pub mod compare;
pub mod fault;
pub mod field;
pub mod show;
