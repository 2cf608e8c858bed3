// Hivebasket for C: the check, the readers and the writers as exported functions over numbers and slices of numbers, and of records (c/hivebasket.h). Each is one call of a
// function below that promises the same, since only what stands in this crate gets into the library; `hive_track` alone is two, as it lends a list of records.
#![tactic(auto)]

mod declarations;
mod files;
mod grids;
mod lettered;
mod lines;
mod looks;
mod refusals;
mod shelves;
mod summaries;
mod tracks;
mod writers;
