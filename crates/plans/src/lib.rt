//! Plans: what a put, change or remove writes by the rules, in any memory that opens. The decision how a full leaf is rewritten, and
//! the choice of free leaves.
#![tactic(auto)]

pub mod decision;
pub mod deed;
pub mod laws;
