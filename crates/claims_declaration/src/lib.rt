// What the declaration of a whole file is for, as theorems; no code.
#![tactic(auto)]
