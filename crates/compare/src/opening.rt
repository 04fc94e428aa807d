// Opening, by the rules: what the words hold, or the first fault.
use crate::book::{Book, Pair};
use crate::chain::{Leaf, Tree};
use crate::kinds::{Kind, Words};
use crate::layout::{MARK, leaf_word, needed, slot_word};
use crate::words::Memory;
use std::alloc::{AllocError, Global};

#[derive(Drop)]
pub enum Opening {
    Granted {
        tree: Tree,
        book: Book,
    },
    Refused {
        number: u64,
        leaf: usize,
        slot: usize,
    },
}

#[derive(Clone, Copy)]
struct Element {
    sign: u64,
    key: Words,
    reading: u64,
}

fn refused(number: u64) -> Opening {
    Opening::Refused {
        number,
        leaf: 0,
        slot: 0,
    }
}

fn element_at(memory: &Memory, leaf: usize, slot: usize) -> Element {
    Element {
        sign: memory.read(slot_word(leaf, slot, 0)),
        key: (
            memory.read(slot_word(leaf, slot, 1)),
            memory.read(slot_word(leaf, slot, 2)),
        ),
        reading: memory.read(slot_word(leaf, slot, 3)),
    }
}

// The newest element of a key in the slots below one.
fn newest(memory: &Memory, leaf: usize, slots: usize, key: Words) -> Option<Element> {
    let mut found = None;
    for slot in 0..slots {
        let older = element_at(memory, leaf, slot);
        if older.key == key {
            found = Some(older);
        }
    }
    found
}

// Whether a key is after every counted key of a leaf.
fn is_after(memory: &Memory, kind: Kind, leaf: &Leaf, key: Words) -> bool {
    for slot in 0..leaf.count {
        if !kind.before(element_at(memory, leaf.number, slot).key, key) {
            return false;
        }
    }
    true
}

fn is_faulty(memory: &Memory, kind: Kind, before: Option<&Leaf>, leaf: usize, slot: usize) -> bool {
    let Element { sign, key, reading } = element_at(memory, leaf, slot);
    if !kind.is_key(key) {
        return true;
    }
    if let Some(before) = before {
        if !is_after(memory, kind, before, key) {
            return true;
        }
    }
    match newest(memory, leaf, slot, key) {
        Some(held) if held.sign == 1 => sign != 2 || reading != held.reading,
        _ => sign != 1,
    }
}

// The first counted slot with a fault, counted from 1.
fn first_fault(
    memory: &Memory,
    kind: Kind,
    before: Option<&Leaf>,
    leaf: usize,
    count: usize,
) -> Option<usize> {
    for slot in 0..count {
        if is_faulty(memory, kind, before, leaf, slot) {
            return Some(slot.saturating_add(1));
        }
    }
    None
}

// The greatest counted key of a leaf, (0, 0) where it has none.
fn greatest(memory: &Memory, kind: Kind, leaf: usize, count: usize) -> Words {
    let mut great = None;
    for slot in 0..count {
        let key = element_at(memory, leaf, slot).key;
        great = match great {
            Some(other) if !kind.before(other, key) => Some(other),
            _ => Some(key),
        };
    }
    great.unwrap_or((0, 0))
}

// The pairs that a leaf has: of the elements of a key the newest decides.
fn pairs(alloc: Global, memory: &Memory, kind: Kind, leaf: &Leaf) -> Result<Book, AllocError> {
    let mut book = Book::new(alloc, kind);
    for slot in 0..leaf.count {
        let Element { sign, key, reading } = element_at(memory, leaf.number, slot);
        book = if sign == 1 {
            book.with(Pair { key, reading })?
        } else {
            book.without(key)?
        };
    }
    Ok(book)
}

fn is_linked(chain: &[Leaf], number: u64) -> bool {
    for leaf in chain {
        if leaf.number as u64 == number {
            return true;
        }
    }
    false
}

// A link is faulty where it names no leaf, one that is linked, or the last free one.
fn is_bad_link(chain: &[Leaf], leaves: usize, link: u64) -> bool {
    link > leaves as u64 || is_linked(chain, link) || chain.len().saturating_add(1) >= leaves
}

// The leaf that a link names, or the slot that is told of its fault.
fn linked(
    memory: &Memory,
    kind: Kind,
    before: Option<&Leaf>,
    number: usize,
) -> Result<Leaf, usize> {
    let next = memory.read(leaf_word(number, 0));
    let count = memory.read(leaf_word(number, 1));
    let form = memory.read(leaf_word(number, 2));
    let alone = before.is_none() && next == 0;
    if count > 16 || form != 0 || (count == 0 && !alone) {
        return Err(0);
    }
    let count = count as usize;
    match first_fault(memory, kind, before, number, count) {
        Some(slot) => Err(slot),
        None => Ok(Leaf {
            number,
            count,
            bound: greatest(memory, kind, number, count),
        }),
    }
}

// What stands before the chain: the number of leaves, or the refusal.
fn head(memory: &Memory, kind: Kind) -> Result<usize, u64> {
    if memory.size() < 152 {
        return Err(4);
    }
    if memory.read(0) != MARK {
        return Err(5);
    }
    if memory.read(1) != kind.code() {
        return Err(6);
    }
    let leaves = memory.read(3);
    if !(2..=64).contains(&leaves) {
        return Err(7);
    }
    let leaves = leaves as usize;
    if memory.size() < needed(leaves) {
        return Err(4);
    }
    Ok(leaves)
}

fn granted(
    alloc: Global,
    memory: &Memory,
    kind: Kind,
    leaves: usize,
    chain: Vec<Leaf>,
) -> Result<Opening, AllocError> {
    let mut book = Book::new(alloc, kind);
    for leaf in chain.iter() {
        book.append(&pairs(alloc, memory, kind, leaf)?)?;
    }
    let tree = Tree::built(alloc, leaves, chain)?;
    Ok(Opening::Granted { tree, book })
}

pub fn open_words(alloc: Global, memory: &Memory, kind: Kind) -> Result<Opening, AllocError> {
    let leaves = match head(memory, kind) {
        Ok(leaves) => leaves,
        Err(number) => return Ok(refused(number)),
    };
    let mut chain: Vec<Leaf> = Vec::new(alloc);
    let mut link = memory.read(2);
    for _ in 0..leaves {
        let holder = chain.last().map_or(0, |leaf| leaf.number);
        if link == 0 && holder != 0 {
            break;
        }
        if link == 0 || is_bad_link(chain.as_slice(), leaves, link) {
            return Ok(Opening::Refused {
                number: 8,
                leaf: holder,
                slot: 0,
            });
        }
        let number = link as usize;
        match linked(memory, kind, chain.last(), number) {
            Ok(leaf) => chain.push(leaf)?,
            Err(slot) => {
                return Ok(Opening::Refused {
                    number: 9,
                    leaf: number,
                    slot,
                });
            }
        }
        link = memory.read(leaf_word(number, 0));
    }
    granted(alloc, memory, kind, leaves, chain)
}
