// The object that a merge writes (specs/Plan.antt), and what the gABI's readers read in it (proofs/). No code.
#![tactic(auto)]

pub use merge_sections;
