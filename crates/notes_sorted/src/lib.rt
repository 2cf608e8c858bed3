// Lists in order, over any test of which comes first: no function stands here; specs/ holds the definitions, proofs/ their laws.
#![tactic(auto)]
