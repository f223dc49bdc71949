// How near a passed-on limit is to the exact one (request 2026-04). No code: the theorem and what it speaks of.
#![tactic(auto)]
