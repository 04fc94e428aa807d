//! Leaves in a memory: reading one, checking one, and opening a memory as a chain of them, for every content of the memory.
#![tactic(auto)]

pub mod leaf;
pub mod open;
