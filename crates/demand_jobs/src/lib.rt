// No code: one small merge and demand 3 of it, computed, and demand 3 refuted for wrong outputs of it.
#![tactic(auto)]
