// No code: the symbols of the merged object, and where a reference leads (demand 3).
#![tactic(auto)]
