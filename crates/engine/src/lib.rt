// A consensus instance: a row of workers, lent by the caller, that settle on one value through a bank of registers.
#![tactic(auto)]

pub mod instance;
pub mod worker;
