//! Programs of C, from the unit to the run: what the rules type them as, and what they do. It has no code; its
//! theorems stand in proofs/.
#![tactic(auto)]
