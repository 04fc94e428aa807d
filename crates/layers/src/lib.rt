//! Layers: each holds a memory of any make or layer below it, and shows that memory's lines under numbers of its own.
#![tactic(auto)]

pub mod chosen;
pub mod layer;
pub mod margin;
pub mod rotation;
