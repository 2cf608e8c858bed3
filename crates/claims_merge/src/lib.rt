// What is demanded of the merge of two files with evening notes, as theorems: no function stands here; specs/ holds the words, proofs/ what is proved.
#![tactic(auto)]
