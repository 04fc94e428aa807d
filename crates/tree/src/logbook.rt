// A logbook over its memory.
use index::table::Index;
use std::marker::PhantomData;

pub mod adopt;
pub mod carry;
pub mod cut;
pub mod find;
pub mod format;
pub(crate) mod free;
pub mod make;
pub mod next;
pub mod node;
pub mod open;
pub mod pairs;
pub mod place;
pub mod rewrite;
pub mod turn;

// Blank: neither formatted nor opened. Open: with the index of the linked leaves. Dark: the memory refused a step, and nothing is
// told until it is opened anew.
#[derive(Clone, Copy)]
pub enum State {
    Blank,
    Open(Index),
    Dark,
}

// It holds its memory, and `taken` is the leaf taken last, if one was.
#[derive(Drop)]
pub struct Logbook<K, M> {
    memory: M,
    state: State,
    taken: Option<usize>,
    kind: PhantomData<K>,
}
