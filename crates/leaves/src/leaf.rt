// One leaf of the tree.
pub mod ask;
pub mod change;
pub mod check;
pub mod read;
pub mod sorted;

use fixed_vec::FixedVec;

// The four words of a slot as they stand, whatever they are: the sign stays a word.
#[derive(Clone, Copy, Default)]
pub struct Element {
    pub sign: u64,
    pub key: (u64, u64),
    pub reading: u64,
}

#[derive(Clone, Copy, Default)]
pub struct Pair {
    pub key: (u64, u64),
    pub reading: u64,
}

// How many slots of a leaf are counted, and the reading that they leave a key with.
#[derive(Clone, Copy)]
pub struct Seen {
    pub count: usize,
    pub held: Option<u64>,
}

// The oldest elements of a leaf, in the order in which they were written.
pub type Elements = FixedVec<Element, 16>;

// Pairs in the order of their keys: those of a leaf, and one more.
pub type Run = FixedVec<Pair, 17>;
