// No code: demand 3, the word of a reference.
#![tactic(auto)]
