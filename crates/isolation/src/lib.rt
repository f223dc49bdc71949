// What shifts one region's sums, counts and period marks, and what cannot (request 2026-05). No code: the theorem and what it speaks of.
#![tactic(auto)]
