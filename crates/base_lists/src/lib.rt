// Definitions on lists and their laws, which every other crate cites. No code.
#![tactic(auto)]
