// The late step after block copying, from the one over C's own .rodata (proofs/Copied.antt). No code.
#![tactic(auto)]

pub use late_runs::{late_length, late_lookups, late_walk};
