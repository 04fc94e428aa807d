// What opening answers where one word of an image is another.
ghost use Rattle.opened.specs.Places.{IsOutcome};

use super::book::{Opened, same_pairs};
use leaves::open::Fault;

#[derive(Clone, Copy, PartialEq)]
pub enum Outcome {
    SameBook,
    // another book, of so many pairs
    OtherBook(usize),
    Refused(Fault),
}

// How the opened words stand to the good image.
pub fn outcome_of(opened: &Opened, good: &Opened) -> Outcome
    ensures { IsOutcome opened.now good.now result }
{
    match opened.fault {
        Some(fault) => Outcome::Refused(fault),
        None => {
            if same_pairs(opened.pairs.as_slice(), good.pairs.as_slice()) {
                Outcome::SameBook
            } else {
                Outcome::OtherBook(opened.pairs.len())
            }
        }
    }
}
