// What is demanded of the check of a file, as theorems over `rules`: no function stands here; specs/ holds the grammar, proofs/ what is proved of it.
#![tactic(auto)]
