// The late step of document 01: its definitions (specs/) and their laws (proofs/). No code.
#![tactic(auto)]

pub use late_length;
pub use late_length::{blocks_items, blocks_places};
