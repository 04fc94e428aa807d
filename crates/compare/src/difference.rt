// The first thing in which the logbook and the rules differ.
use crate::answer::Answer;
use crate::call::Call;
use crate::kinds::Words;
use crate::model::Flaw;
use std::fmt;

#[derive(Clone, Copy)]
pub enum What {
    Answer {
        ours: Answer,
        theirs: Answer,
    },
    Node {
        node: usize,
        ours: Answer,
        theirs: Answer,
    },
    Live {
        at: usize,
        ours: u64,
        theirs: u64,
    },
    Firm {
        at: usize,
        ours: u64,
        theirs: u64,
    },
    Steps {
        ours: Option<u64>,
        theirs: Option<u64>,
    },
    Key {
        words: Words,
    },
    Order {
        a: Words,
        b: Words,
    },
    Flaw {
        flaw: Flaw,
    },
}

// In a call, or in what stands after it; calls are counted from 0, the format or the opening.
#[derive(Clone, Copy)]
pub struct Difference {
    pub number: usize,
    pub call: Call,
    pub what: What,
}

impl fmt::Display for What {
    fn fmt<W: fmt::Write>(&self, f: &mut fmt::Formatter<W>) -> fmt::Result {
        match self {
            What::Answer { ours, theirs } => write!(f, "{ours} by the rules, {theirs} told"),
            What::Node { node, ours, theirs } => {
                write!(f, "node {node}: {ours} by the rules, {theirs} told")
            }
            What::Live { at, ours, theirs } => {
                write!(f, "live word {at}: {ours} by the rules, {theirs} there")
            }
            What::Firm { at, ours, theirs } => {
                write!(f, "firm word {at}: {ours} by the rules, {theirs} there")
            }
            What::Steps { ours, theirs } => {
                write!(f, "steps left: {ours:?} by the rules, {theirs:?} left")
            }
            What::Key { words } => {
                let (first, second) = words;
                write!(f, "the key or words {first} {second}")
            }
            What::Order { a, b } => {
                let (first, second) = a;
                write!(f, "the order of {first} {second} and ")?;
                let (first, second) = b;
                write!(f, "{first} {second}")
            }
            What::Flaw { flaw: Flaw::Cost } => {
                write!(f, "the steps of a call are not those of the rules' table")
            }
            What::Flaw { flaw: Flaw::Law } => {
                write!(f, "the book after a cut is not the one of the law of cuts")
            }
        }
    }
}

impl fmt::Display for Difference {
    fn fmt<W: fmt::Write>(&self, f: &mut fmt::Formatter<W>) -> fmt::Result {
        let Difference { number, call, what } = self;
        write!(f, "call {number}, {call}: {what}")
    }
}
