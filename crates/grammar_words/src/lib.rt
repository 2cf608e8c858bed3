// Document 01's table of listed codes, its characters and its limits in its own words, and that those of `rules` are these: theorems over `rules`, for the crates that
// state the demands. No function stands here.
#![tactic(auto)]
