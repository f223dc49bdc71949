// The book record and rule 10, and the refusals that all calls share.
#![tactic(auto)]

pub mod record;
pub mod validity;
