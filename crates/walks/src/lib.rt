// Rules for functions that are proved by a walk of their code: no code, only proofs (proofs/), that every walk cites.
#![tactic(auto)]
