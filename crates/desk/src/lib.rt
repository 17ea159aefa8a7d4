// The face of the desk: every call of 01, exported with a C interface of numbers and byte slices.
#![tactic(auto)]

mod answers;
mod diffs;
mod records;
mod restores;
mod volumes;
