//! A worked example: a make of memory that is brought from outside. It sees the trait `Memory` and the refusals, and nothing of the logbook.
#![tactic(auto)]

pub mod copies;
pub mod shadowed;
