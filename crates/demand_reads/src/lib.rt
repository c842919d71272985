// The merged object reads as an object: the record `Reads` of demand 3 (the crate demand_clauses) of every accepted merge (proofs/). No code.
#![tactic(auto)]
