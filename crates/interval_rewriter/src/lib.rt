// Interval records of the earlier form, their regions in any order: tested, and written anew in number order.
#![tactic(auto)]

mod any_order;
pub mod rewriting;
