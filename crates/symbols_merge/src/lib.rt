// The symbols of the merged object, over any candidates: the list that 18 and 19 count in, one symbol for each name, their order and numbers (specs/), and what follows
// (proofs/Merged.antt). Which candidates there are is the crate symbols_ids'. No code.
#![tactic(auto)]
