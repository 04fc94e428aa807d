//! The logbook that a script calls, over a memory and up to three layers: what each call, cut and setting answers.
#![tactic(auto)]

pub mod answer;
pub mod book;
pub mod cut;
pub mod layered;
pub mod pile;
pub mod runs;
