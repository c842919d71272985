// Small objects on which definitions are computed (specs/Samples.antt). No code.
#![tactic(auto)]
