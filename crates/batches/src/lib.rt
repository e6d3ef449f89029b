// Batch numbers, a kind of value that a pay run can settle on.
#![tactic(auto)]

pub mod batch;
