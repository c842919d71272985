// No code: the theorem that every accepted merge meets demand 3 (proofs/Theorem.antt).
#![tactic(auto)]
