// The head of an image, field by field, and the prices of a book that an image holds.
#![tactic(auto)]

pub mod counted;
pub mod layout;
