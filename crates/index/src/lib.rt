//! The index of a logbook: which leaf a key belongs to. It is kept in working memory and built anew at each opening.
#![tactic(auto)]

pub mod laws;
pub mod node;
pub mod record;
pub mod table;
