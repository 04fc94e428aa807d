//! A worked example: a kind of key that is brought from outside. It sees the trait `Key` and the refusals, and nothing of the logbook.
#![tactic(auto)]

pub mod gps;
