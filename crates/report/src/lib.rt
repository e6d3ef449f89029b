// What is in a box, as text: a line for each register and one for the decision.
#![tactic(auto)]

mod lines;
pub mod view;
