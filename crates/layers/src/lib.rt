// Layers over any bank of registers, each a bank again: windows and permutations, in any order and to any depth.
#![tactic(auto)]

pub mod permutation;
pub mod permuted;
pub mod window;
