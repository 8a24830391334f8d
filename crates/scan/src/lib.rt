// Leaf scanners: what stands at the front of a text, its value, and how many bytes it takes.
// A leaf answers its value and its count as plain numbers (docs/DECISIONS.md, "Forms"): that the count is a boundary is a clause of each, `cut`, and of no type.
#![tactic(auto)]

pub mod kind;
pub mod number;
pub mod single;
