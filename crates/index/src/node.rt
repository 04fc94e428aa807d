// A node of the index: its leaves or children in their order, each with the bound of its last key.
use fixed_vec::FixedVec;

pub(crate) mod fill;
pub(crate) mod search;

// A leaf or a child node, and its bound; the bound of the last one is not used.
#[derive(Clone, Copy, Default, PartialEq, Eq, Debug)]
pub struct Entry {
    pub to: usize,
    pub bound: (u64, u64),
}

#[derive(Clone, Copy)]
pub(crate) struct Node {
    pub(crate) entries: FixedVec<Entry, 9>,
}
