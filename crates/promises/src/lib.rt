// What the component promises, in one place: no code, only statements (specs/) and their proofs (proofs/).
#![tactic(auto)]
