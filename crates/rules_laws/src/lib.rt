// The laws of document 01 as theorems over `rules`: no function stands here; proofs/ holds them.
#![tactic(auto)]
