// Choices of a tax region with a rate edition, a kind of value that a pay run can settle on.
#![tactic(auto)]

pub mod choice;
