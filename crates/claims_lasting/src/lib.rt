// What notes and added columns leave of the columns of a whole file, as theorems: specs/ has their words, and proofs/Lasting.antt is the page to read.
#![tactic(auto)]
