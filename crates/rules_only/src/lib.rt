// No second answer meets a promise of `rules`: no function stands here; proofs/ holds the laws.
#![tactic(auto)]
