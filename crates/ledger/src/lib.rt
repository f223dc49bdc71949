// No code: the ledger machine P, lists of calls, and the theorem that the book answers as P does.
#![tactic(auto)]
