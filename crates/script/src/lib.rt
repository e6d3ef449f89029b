// Script lines: their fields, what they ask, and why they are refused.
#![tactic(auto)]

pub mod fields;
pub mod line;
pub mod refusal;
mod shape;
