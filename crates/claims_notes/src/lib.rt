// Notes tell nothing and change nothing, as theorems: specs/ has their words, and proofs/Notes.antt is the page to read.
#![tactic(auto)]
