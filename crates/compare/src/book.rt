// A book: pairs in the order of their keys.
use crate::kinds::{Kind, Words};
use std::alloc::{AllocError, Global};

#[derive(Clone, Copy, PartialEq, Eq)]
pub struct Pair {
    pub key: Words,
    pub reading: u64,
}

#[derive(Drop)]
pub struct Book {
    alloc: Global,
    kind: Kind,
    pairs: Vec<Pair>,
}

impl Book {
    pub fn new(alloc: Global, kind: Kind) -> Self {
        Book {
            alloc,
            kind,
            pairs: Vec::new(alloc),
        }
    }

    pub fn pairs(&self) -> &[Pair] {
        self.pairs.as_slice()
    }

    pub fn find(&self, key: Words) -> Option<u64> {
        for pair in self.pairs.iter() {
            if pair.key == key {
                return Some(pair.reading);
            }
        }
        None
    }

    // The first pair after a key.
    pub fn next(&self, key: Words) -> Option<Pair> {
        for pair in self.pairs.iter() {
            if self.kind.before(key, pair.key) {
                return Some(*pair);
            }
        }
        None
    }

    // The book without a key.
    pub fn without(&self, key: Words) -> Result<Book, AllocError> {
        let mut out = Book::new(self.alloc, self.kind);
        for pair in self.pairs.iter() {
            if pair.key != key {
                out.pairs.push(*pair)?;
            }
        }
        Ok(out)
    }

    // The book with a pair, in the place of one with the same key.
    pub fn with(&self, new: Pair) -> Result<Book, AllocError> {
        let mut out = Book::new(self.alloc, self.kind);
        for pair in self.pairs.iter() {
            if self.kind.before(pair.key, new.key) {
                out.pairs.push(*pair)?;
            }
        }
        out.pairs.push(new)?;
        for pair in self.pairs.iter() {
            if self.kind.before(new.key, pair.key) {
                out.pairs.push(*pair)?;
            }
        }
        Ok(out)
    }

    // All pairs of another book, at the end.
    pub fn append(&mut self, other: &Book) -> Result<(), AllocError> {
        self.pairs.extend_from_slice(other.pairs())
    }

    pub fn copied(&self) -> Result<Book, AllocError> {
        let mut out = Book::new(self.alloc, self.kind);
        out.append(self)?;
        Ok(out)
    }

    pub fn is_same(&self, other: &Book) -> bool {
        self.pairs() == other.pairs()
    }

    // How many keys are not after this one.
    pub fn up_to(&self, key: Words) -> usize {
        let mut many = 0_usize;
        for pair in self.pairs.iter() {
            if !self.kind.before(key, pair.key) {
                many = many.saturating_add(1);
            }
        }
        many
    }
}
