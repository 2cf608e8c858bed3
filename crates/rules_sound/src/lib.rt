// The families one by one, the entries of a layout line both ways, the layout that an I, a J or an M line tells, and the columns that it gives a line: theorems over the
// definitions of `rules`, for the crates of theorems. No function stands here.
#![tactic(auto)]
