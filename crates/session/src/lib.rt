//! Sessions: lists of calls and cuts, played on one logbook from a granted format on. The law of cuts stands in the contract of `play`.
#![tactic(auto)]

pub mod act;
pub mod play;
