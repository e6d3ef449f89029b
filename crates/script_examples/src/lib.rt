// Script lines and the lines that answer them, run as tests.
#![tactic(auto)]

#[cfg(test)]
mod asked;
#[cfg(test)]
mod printed;
