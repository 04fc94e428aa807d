//! What opening answers to a memory's words and the book that they hold: what each word is by the layout, where a fault lies, words as an image,
//! which mixes of words a cut may leave, and how the opened book stands to another.
#![tactic(auto)]

pub mod book;
pub mod mixes;
pub mod outcome;
pub mod parts;
pub mod picture;
pub mod place;
pub mod verdict;
