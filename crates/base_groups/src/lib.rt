// Orders of indices: a stable order by groups (specs/Groups.antt), and the first of those that are alike (specs/Holders.antt). No code.
#![tactic(auto)]
