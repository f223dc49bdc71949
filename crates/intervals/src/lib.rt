// Interval records from the plant bus, read: an entry, its schedule aside.
#![tactic(auto)]

pub mod lent;
pub mod reading;
