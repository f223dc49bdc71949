// The calls on a book that look at no price: opening, the threshold and limit settings, and the report.
#![tactic(auto)]

pub mod opening;
pub mod report;
pub mod setting;
