// What can be read of a file that was checked without a table, and each column of a line that was read, as theorems: specs/ has their words, and proofs/Readable.antt is the page to read.
#![tactic(auto)]
