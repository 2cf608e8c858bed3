// What the kinds of a file's lines are for, as theorems; no code.
#![tactic(auto)]
