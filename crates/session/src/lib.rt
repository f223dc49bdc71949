// No code: demand 3 over sequences of C calls.
#![tactic(auto)]
