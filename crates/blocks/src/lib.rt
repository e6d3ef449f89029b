// Records as blocks of 20 bytes, and banks on bytes: one that writes, and one that only reads.
#![tactic(auto)]

pub mod block;
pub mod block_bank;
mod bytes;
pub mod image_bank;
