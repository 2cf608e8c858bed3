// What added columns leave of the track and of the summary of a file, as theorems: specs/ has their words, and proofs/Steady.antt is the page to read.
#![tactic(auto)]
