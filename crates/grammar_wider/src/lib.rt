// Added columns change nothing old: theorems over the definitions of `rules`. No function stands here; specs/ says what it is to add columns, proofs/ holds them.
#![tactic(auto)]
