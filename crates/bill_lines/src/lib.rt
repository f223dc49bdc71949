// The lines of a bill, and the first refusals of a call that holds them against the rules.
#![tactic(auto)]

pub mod lent;
pub mod lines;
