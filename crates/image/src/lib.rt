// The image of a book: store, load and the image check.
#![tactic(auto)]

pub mod loading;
mod reading;
pub mod storing;
