// The candidates of a merge: their entries as they stand in the result (specs/Entries.antt), and their ids (specs/Ids.antt). No code.
#![tactic(auto)]

pub use symbols_taken;
pub use symbols_taken::merge_inputs;
