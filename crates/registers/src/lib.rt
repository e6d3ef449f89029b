// Registers: records that can only be lawful, banks of registers, and the decision that a bank shows.
#![tactic(auto)]

pub mod bank;
pub mod decision;
pub mod record;
pub mod refusal;
pub mod tag;
