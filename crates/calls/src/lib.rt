// What is asked of the workers and what they answer: calls, hints, outcomes, and refusals.
#![tactic(auto)]

pub mod call;
pub mod hint;
pub mod outcome;
pub mod refusal;
