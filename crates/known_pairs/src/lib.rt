// The known pairs of document 01 that it marks as proved: one table (specs/Pairs.antt) of what the definitions give for its inputs (specs/Jobs.antt). No code.
#![tactic(auto)]
