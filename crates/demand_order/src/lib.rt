// No code: the order of all references of the merged object, none lost, doubled or added.
#![tactic(auto)]
