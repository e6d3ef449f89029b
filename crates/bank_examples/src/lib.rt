// Worked examples and limits of banks on caller's memory and of stacks of layers, run as tests.
#![tactic(auto)]

#[cfg(test)]
mod banks;
#[cfg(test)]
mod stacks;
