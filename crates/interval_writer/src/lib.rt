// Interval records from the plant bus, written.
#![tactic(auto)]

pub mod writing;
