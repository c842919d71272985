// The glabels of a block file: which names are glabels, and the sizes that blocks give them (specs/Glabels.antt). No code.
#![tactic(auto)]
