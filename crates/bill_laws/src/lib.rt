// What the answers of a bill check mean (request 2026-09). No code: the laws and what they speak of.
#![tactic(auto)]
