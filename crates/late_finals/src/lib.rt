// The final bytes of C's sections, by code, and which of them the merge writes (specs/Finals.antt); the addend laws over them (proofs/Finals.antt). No code.
#![tactic(auto)]

pub use late_moves::late_length;
