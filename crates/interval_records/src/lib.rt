// Interval records from the plant bus: their layout, and the refusals of an interval's records in number order.
#![tactic(auto)]

pub mod in_order;
pub mod layout;
pub mod record;
