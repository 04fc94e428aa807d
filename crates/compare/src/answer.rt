// What a call is answered, with refusals as their numbers.
use crate::kinds::Words;
use std::fmt;

#[derive(Clone, Copy, PartialEq, Eq)]
pub enum Holds {
    Nothing,
    Leaves,
    Children,
}

// A node: what it holds, and the bounds between neighbours. Places past what is told are 0.
#[derive(Clone, Copy, PartialEq, Eq)]
pub struct Node {
    pub holds: Holds,
    pub many: usize,
    pub numbers: [usize; 9],
    pub between: usize,
    pub bounds: [Words; 8],
}

#[derive(Clone, Copy, PartialEq, Eq)]
pub enum Answer {
    NotPlayed,
    Granted,
    Steps {
        steps: usize,
    },
    Removed {
        reading: u64,
        steps: usize,
    },
    Halted {
        number: u64,
        steps: usize,
    },
    Reading {
        reading: u64,
    },
    Next {
        key: Words,
        reading: u64,
    },
    Number {
        number: usize,
    },
    Node {
        node: Node,
    },
    Refused {
        number: u64,
    },
    NotOpened {
        number: u64,
        leaf: usize,
        slot: usize,
    },
}

impl Node {
    pub fn new(holds: Holds) -> Self {
        Node {
            holds,
            many: 0,
            numbers: [0; 9],
            between: 0,
            bounds: [(0, 0); 8],
        }
    }

    pub fn number(&mut self, number: usize) {
        if let Some(place) = self.numbers.get_mut(self.many) {
            *place = number;
        }
        self.many = self.many.saturating_add(1);
    }

    pub fn bound(&mut self, bound: Words) {
        if let Some(place) = self.bounds.get_mut(self.between) {
            *place = bound;
        }
        self.between = self.between.saturating_add(1);
    }
}

impl Answer {
    // The number of the refusal that it tells, 0 where it tells none.
    pub fn refusal(&self) -> u64 {
        match *self {
            Answer::Halted { number, .. }
            | Answer::Refused { number }
            | Answer::NotOpened { number, .. } => number,
            _ => 0,
        }
    }
}

impl fmt::Display for Node {
    fn fmt<W: fmt::Write>(&self, f: &mut fmt::Formatter<W>) -> fmt::Result {
        match self.holds {
            Holds::Nothing => return write!(f, "nothing"),
            Holds::Leaves => write!(f, "leaves")?,
            Holds::Children => write!(f, "children")?,
        }
        for number in self.numbers.iter().take(self.many) {
            write!(f, " {number}")?;
        }
        write!(f, ", bounds")?;
        for (first, second) in self.bounds.iter().take(self.between) {
            write!(f, " {first} {second}")?;
        }
        Ok(())
    }
}

impl fmt::Display for Answer {
    fn fmt<W: fmt::Write>(&self, f: &mut fmt::Formatter<W>) -> fmt::Result {
        match self {
            Answer::NotPlayed => write!(f, "not played"),
            Answer::Granted => write!(f, "granted"),
            Answer::Steps { steps } => write!(f, "{steps} steps"),
            Answer::Removed { reading, steps } => write!(f, "reading {reading}, {steps} steps"),
            Answer::Halted { number, steps } => write!(f, "refused {number}, {steps} steps"),
            Answer::Reading { reading } => write!(f, "reading {reading}"),
            Answer::Next { key, reading } => {
                let (first, second) = *key;
                write!(f, "key {first} {second}, reading {reading}")
            }
            Answer::Number { number } => write!(f, "{number}"),
            Answer::Node { node } => write!(f, "{node}"),
            Answer::Refused { number } => write!(f, "refused {number}"),
            Answer::NotOpened { number, leaf, slot } => {
                write!(f, "refused {number}, leaf {leaf}, slot + 1 is {slot}")
            }
        }
    }
}
