//! Why a call is refused: one list of plain cases for the whole logbook, each with the number by which it is told.
#![tactic(auto)]

ghost use Rattle.std.specs.Prelude.{◌≡◌, Some};
ghost use Rattle.std.specs.Fmt.{decimal, styled_decimal};
ghost use Rattle.refusal.specs.Numbers.{number_of};

use std::fmt;

#[derive(Clone, Copy, PartialEq, Eq, Debug)]
pub enum Refusal {
    // a word, line or node that is not there
    Outside = 1,
    // no steps left, or the logbook has met that before
    NoPower = 2,
    // the word's live and firm contents differ
    Unsettled = 3,
    // a memory, a choice run or an image of the wrong length
    WrongLength = 4,
    // the memory's first word is not the mark of a logbook
    WrongMark = 5,
    // the memory holds keys of another kind
    OtherKind = 6,
    // a number of leaves outside 2 to 64
    LeafCount = 7,
    // a link of the chain of leaves that cannot stand
    BadLink = 8,
    // a leaf with a fault
    BadLeaf = 9,
    // a field or two words that make no key
    NotAKey = 10,
    // the key is there already
    Present = 11,
    // there is no such key, or none after the given one
    Absent = 12,
    // no two free leaves for a split
    NoRoom = 13,
    // the logbook is neither formatted nor opened
    Blank = 14,
}

impl Refusal {
    // The number by which the refusal is told.
    pub fn number(self) -> u8
        ensures { result ≡ number_of self }
    {
        self as u8
    }
}

// A refusal prints as its number.
impl fmt::Display for Refusal {
    ghost output = { λ r. Some (decimal (number_of r)) };

    ghost styled_output = { λ r s. Some (styled_decimal s (number_of r)) };

    fn fmt<W: fmt::Write>(&self, f: &mut fmt::Formatter<W>) -> fmt::Result {
        self.number().fmt(f)
    }
}
