// What the summary beside a flight is for, as theorems: specs/ has their words, and proofs/Summary.antt is the page to read.
#![tactic(auto)]
