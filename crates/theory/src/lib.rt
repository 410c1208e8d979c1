// Mathematics of assignments and of searches. No code runs from here: the contract of each function is a theorem.
#![tactic(auto)]

pub mod assignments;
pub mod trail;
