// A list of calls as bytes: records of calls read, and records of answers written. docs/RECORDS.md has the layout.
#![tactic(auto)]

pub mod reading;
pub mod writing;
