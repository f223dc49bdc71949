// The lower crate of document 01: rounding, holding within limits, carrying a limit over a link, and the index. The schedule maker
// and the text of an amount stand in crates of their own beside it. The crates above see only what these functions promise.
#![tactic(auto)]

pub mod carrying;
pub mod holding;
pub mod indexing;
pub mod rounding;
