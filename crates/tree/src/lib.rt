//! The logbook: a book of pairs in the words of any memory, for any kind of key.
#![tactic(auto)]

pub mod laws;
pub mod logbook;
