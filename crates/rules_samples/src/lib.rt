// A line of each kind that has a writer, read and spelled by hand: theorems over the definitions of `rules`. No function stands here.
#![tactic(auto)]
