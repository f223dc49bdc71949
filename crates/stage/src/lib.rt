// What the programs on books and interval records stand on: reading the numbers of a line, and printing what calls answer.
#![tactic(auto)]

pub mod printing;
pub mod reading;
pub mod records;
