// Evening notes, and two files with notes merged, as definitions: no function stands here; specs/ says what is right, proofs/ holds the laws of texts in order.
#![tactic(auto)]
