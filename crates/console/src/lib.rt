//! The script console: each line of a script is one call, answered by one line.
#![tactic(auto)]

pub mod play;
pub mod write;
