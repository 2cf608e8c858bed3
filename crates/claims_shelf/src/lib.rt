// What a shelf of flights is for, as theorems: specs/ has their words, and proofs/Shelf.antt is the page to read.
#![tactic(auto)]
