//! A script: lines of words, and what each line asks for; and what the words after a program's name ask for.
#![tactic(auto)]

pub mod args;
pub mod line;
pub mod parse;
pub mod reader;
pub mod wrong;
