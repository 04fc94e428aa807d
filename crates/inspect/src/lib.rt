//! What an image holds, or why it does not open and where; and what opening answers to an image with one word changed.
#![tactic(auto)]

pub mod damage;
pub mod fault;
pub mod files;
pub mod key;
pub mod leaf;
pub mod tally;
pub mod tell;
