// Reading and writing are the two ways of one trip: theorems over the definitions of `rules`, for the writers and for the laws. No function stands here.
#![tactic(auto)]
