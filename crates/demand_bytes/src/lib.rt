// No code: that a merge leaves C's bytes where it writes none (proofs/Bytes.antt).
#![tactic(auto)]
