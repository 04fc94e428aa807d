//! Makes of memory: words lent by the caller, shown by the meaning of a memory.
#![tactic(auto)]

pub mod buffered;
pub mod probe;
pub mod through;
