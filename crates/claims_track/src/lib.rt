// What the whole track of a file is for, as theorems: specs/ has their words, and proofs/Track.antt is the page to read.
#![tactic(auto)]
