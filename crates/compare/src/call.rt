// What is asked of a logbook, with keys as their words.
ghost use Rattle.std.specs.Prelude.{◌≡◌, drop};

use crate::kinds::Words;
use std::fmt;

#[derive(Clone, Copy)]
pub enum Call {
    Format { leaves: usize },
    Open,
    Put { key: Words, reading: u64 },
    Change { key: Words, reading: u64 },
    Remove { key: Words },
    Find { key: Words },
    Next { key: Words },
    Pairs,
    Node { number: usize },
    Cut { from: usize, steps: u64 },
}

impl Call {
    // A place for each sort of call.
    pub fn sort(&self) -> usize {
        match self {
            Call::Format { .. } => 0,
            Call::Open => 1,
            Call::Put { .. } => 2,
            Call::Change { .. } => 3,
            Call::Remove { .. } => 4,
            Call::Find { .. } => 5,
            Call::Next { .. } => 6,
            Call::Pairs => 7,
            Call::Node { .. } => 8,
            Call::Cut { .. } => 9,
        }
    }
}

impl fmt::Display for Call {
    fn fmt<W: fmt::Write>(&self, f: &mut fmt::Formatter<W>) -> fmt::Result {
        match *self {
            Call::Format { leaves } => write!(f, "format of {leaves} leaves"),
            Call::Open => write!(f, "open"),
            Call::Put {
                key: (a, b),
                reading,
            } => write!(f, "put {a} {b}, reading {reading}"),
            Call::Change {
                key: (a, b),
                reading,
            } => write!(f, "change {a} {b}, reading {reading}"),
            Call::Remove { key: (a, b) } => write!(f, "remove {a} {b}"),
            Call::Find { key: (a, b) } => write!(f, "find {a} {b}"),
            Call::Next { key: (a, b) } => write!(f, "next {a} {b}"),
            Call::Pairs => write!(f, "pairs"),
            Call::Node { number } => write!(f, "node {number}"),
            Call::Cut { from, steps } => write!(f, "cut by the choices from {from}, {steps} steps"),
        }
    }
}

// The choices of a cut: those from a word on.
pub fn choices_from(choices: &[u64], from: usize) -> &[u64]
    ensures { result.now ≡ drop from choices.now }
{
    choices.get(from..).unwrap_or(&[])
}
