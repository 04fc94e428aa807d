//! A sweep: the last call of a script cut off after each number of its steps, and the supply lost there with each mix of the words
//! that may then stand old or new.
#![tactic(auto)]

pub mod failure;
pub mod last;
pub mod page;
pub mod row;
pub mod show;
pub mod stop;
pub mod tally;
pub mod whole;
