// The protocol of one worker, without a bank: its state, the rounds it may begin, and what it makes of a record that it read.
#![tactic(auto)]

pub mod round;
pub mod state;
pub mod turn;
