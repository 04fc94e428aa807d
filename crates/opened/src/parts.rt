// What each word of a logbook is by the layout.
ghost use Rattle.std.specs.Prelude.{◌+◌, ◌≤◌, ◌<◌};
ghost use Rattle.leaves.specs.Layout.{leaf_at};
ghost use Rattle.opened.specs.Parts.{IsPart};

use std::fmt;

// The part that a word plays: a word of the head, or a word of a leaf by its number and, in its slots, by the slot.
#[derive(Clone, Copy)]
pub enum Part {
    Mark,
    Code,
    FirstLeaf,
    LeafCount,
    Next(usize),
    Count(usize),
    Form(usize),
    Sign(usize, usize),
    KeyFirst(usize, usize),
    KeySecond(usize, usize),
    Reading(usize, usize),
    NotUsed,
}

// The part of a leaf's word, counted from the leaf's first.
fn in_leaf(leaf: usize, at: usize) -> Part
    requires leaf { 1 ≤ leaf }
    requires within { at < 72 }
    ensures { IsPart leaf (leaf_at leaf + at) result }
{
    if at >= 8 {
        let slot = (at - 8) / 4;
        return match at % 4 {
            0 => Part::Sign(leaf, slot),
            1 => Part::KeyFirst(leaf, slot),
            2 => Part::KeySecond(leaf, slot),
            _ => Part::Reading(leaf, slot),
        };
    }
    match at {
        0 => Part::Next(leaf),
        1 => Part::Count(leaf),
        2 => Part::Form(leaf),
        _ => Part::NotUsed,
    }
}

// The part of a word in a logbook of so many leaves.
pub fn part_of(leaves: usize, at: usize) -> Part
    ensures { IsPart leaves at result }
{
    if at >= 8 {
        let leaf = (at - 8) / 72 + 1;
        if leaf > leaves {
            return Part::NotUsed;
        }
        return in_leaf(leaf, (at - 8) % 72);
    }
    match at {
        0 => Part::Mark,
        1 => Part::Code,
        2 => Part::FirstLeaf,
        3 => Part::LeafCount,
        _ => Part::NotUsed,
    }
}

impl fmt::Display for Part {
    fn fmt<W: fmt::Write>(&self, f: &mut fmt::Formatter<W>) -> fmt::Result {
        match *self {
            Part::Mark => write!(f, "the mark"),
            Part::Code => write!(f, "the kind of key"),
            Part::FirstLeaf => write!(f, "the first leaf"),
            Part::LeafCount => write!(f, "the number of leaves"),
            Part::Next(leaf) => write!(f, "leaf {leaf}: next leaf"),
            Part::Count(leaf) => write!(f, "leaf {leaf}: count"),
            Part::Form(leaf) => write!(f, "leaf {leaf}: form"),
            Part::Sign(leaf, slot) => write!(f, "leaf {leaf} slot {slot}: sign"),
            Part::KeyFirst(leaf, slot) => write!(f, "leaf {leaf} slot {slot}: key, first word"),
            Part::KeySecond(leaf, slot) => write!(f, "leaf {leaf} slot {slot}: key, second word"),
            Part::Reading(leaf, slot) => write!(f, "leaf {leaf} slot {slot}: reading"),
            Part::NotUsed => write!(f, "not used"),
        }
    }
}
