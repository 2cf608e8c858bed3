// Files whose lines other than L lines are the same say the same, as laws: no function stands here; specs/ has the words, proofs/ what is proved.
#![tactic(auto)]
