// No code: this crate holds definitions and laws that the other crates cite.
#![tactic(auto)]
