// No code: demand 3, as definitions.
#![tactic(auto)]
