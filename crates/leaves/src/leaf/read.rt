// Words and elements of one leaf, for every content of the memory.
ghost use Rattle.std.specs.Prelude.{◌≡◌, ◌<◌, ◌≤◌, length};
ghost use Rattle.fixed_vec.specs.Items.{items};
ghost use Rattle.keys.specs.InWords.{in_words};
ghost use Rattle.leaves.specs.Layout.{word, Within, leaf_at, element as element_at, elements as elements_of};
ghost use Rattle.leaves.specs.Opening.{greatest as greatest_of, later as later_of};
ghost use Rattle.leaves.specs.Pairs.{equal, held as held_by, latest};

use super::{Element, Elements};
use keys::{Key, greater};
use memory::Memory;

// The word that a leaf begins at.
pub(crate) fn start_of(leaf: usize) -> usize
    requires { (1 ≤ leaf) × (leaf ≤ 64) }
    ensures { result ≡ leaf_at leaf }
{
    8 + 72 * (leaf - 1)
}

pub(crate) fn word_at<M: Memory>(memory: &mut M, at: usize) -> u64
    requires { at < length (M.Memory.meaning memory.old).live }
    ensures same { M.Memory.meaning memory.new ≡ M.Memory.meaning memory.old }
    ensures value { result ≡ word (M.Memory.meaning memory.old).live at }
{
    memory.read(at).unwrap()
}

pub(crate) fn element<M: Memory>(memory: &mut M, leaf: usize, slot: usize) -> Element
    requires { (Within (M.Memory.meaning memory.old).live leaf) × (slot < 16) }
    ensures same { M.Memory.meaning memory.new ≡ M.Memory.meaning memory.old }
    ensures value { result ≡ element_at (M.Memory.meaning memory.old).live leaf slot }
{
    let start = start_of(leaf) + 8 + 4 * slot;
    let sign = word_at(memory, start);
    let first = word_at(memory, start + 1);
    let second = word_at(memory, start + 2);
    let reading = word_at(memory, start + 3);
    Element {
        sign,
        key: (first, second),
        reading,
    }
}

// The oldest `count` elements of the leaf, which are at most 16 and so have room.
pub(crate) fn elements<M: Memory>(memory: &mut M, leaf: usize, count: usize) -> Elements
    requires { (Within (M.Memory.meaning memory.old).live leaf) × (count ≤ 16) }
    ensures same { M.Memory.meaning memory.new ≡ M.Memory.meaning memory.old }
    ensures value { items result ≡ elements_of (M.Memory.meaning memory.old).live leaf count }
{
    let mut read = Elements::new(Element::default());
    // Counted: the memory is asked by the number of a slot; a chain of iterators would have to lend it to a closure.
    for slot in 0..count {
        read.push(element(memory, leaf, slot)).unwrap();
    }
    read
}

// Whether the element in a slot is one of the key.
fn is_of<M: Memory>(memory: &mut M, leaf: usize, slot: usize, key: (u64, u64)) -> bool
    requires { (Within (M.Memory.meaning memory.old).live leaf) × (slot < 16) }
    ensures same { M.Memory.meaning memory.new ≡ M.Memory.meaning memory.old }
    ensures value { result ≡ equal (element_at (M.Memory.meaning memory.old).live leaf slot).key key }
{
    let start = start_of(leaf) + 8 + 4 * slot;
    word_at(memory, start + 1) == key.0 && word_at(memory, start + 2) == key.1
}

// What the element in a slot says of its key.
fn held_at<M: Memory>(memory: &mut M, leaf: usize, slot: usize) -> Option<u64>
    requires { (Within (M.Memory.meaning memory.old).live leaf) × (slot < 16) }
    ensures same { M.Memory.meaning memory.new ≡ M.Memory.meaning memory.old }
    ensures value { result ≡ held_by (element_at (M.Memory.meaning memory.old).live leaf slot) }
{
    let start = start_of(leaf) + 8 + 4 * slot;
    if word_at(memory, start) != 1 {
        return None;
    }
    Some(word_at(memory, start + 3))
}

// The reading that the oldest `count` elements of the leaf leave the key with, looked for from the newest on; no word is read twice.
pub(crate) fn find_by_reads<M: Memory>(
    memory: &mut M,
    leaf: usize,
    count: usize,
    key: (u64, u64),
) -> Option<u64>
    requires { (Within (M.Memory.meaning memory.old).live leaf) × (count ≤ 16) }
    ensures same { M.Memory.meaning memory.new ≡ M.Memory.meaning memory.old }
    ensures value { result ≡ latest key (elements_of (M.Memory.meaning memory.old).live leaf count) }
{
    for slot in (0..count).rev() {
        if is_of(memory, leaf, slot, key) {
            return held_at(memory, leaf, slot);
        }
    }
    None
}

// The key of the element in a slot.
fn key_at<M: Memory>(memory: &mut M, leaf: usize, slot: usize) -> (u64, u64)
    requires { (Within (M.Memory.meaning memory.old).live leaf) × (slot < 16) }
    ensures same { M.Memory.meaning memory.new ≡ M.Memory.meaning memory.old }
    ensures value { result ≡ (element_at (M.Memory.meaning memory.old).live leaf slot).key }
{
    let start = start_of(leaf) + 8 + 4 * slot;
    let first = word_at(memory, start + 1);
    let second = word_at(memory, start + 2);
    (first, second)
}

// The greatest key with one key more, where `best` is the greatest without it, if there is one.
fn greatest_with<K: Key>(key: (u64, u64), best: Option<(u64, u64)>) -> (u64, u64)
    ensures { result ≡ later_of (in_words K.Key.kind) key best }
{
    best.map_or(key, |b| greater::<K>(b, key))
}

// The greatest key of the oldest `count` elements of the leaf, if there are any. Only the words of keys are read, and no list is made:
// one would cost more than the search.
pub(crate) fn greatest_by_reads<K: Key, M: Memory>(
    memory: &mut M,
    leaf: usize,
    count: usize,
) -> Option<(u64, u64)>
    requires { (Within (M.Memory.meaning memory.old).live leaf) × (count ≤ 16) }
    ensures same { M.Memory.meaning memory.new ≡ M.Memory.meaning memory.old }
    ensures value { result ≡ greatest_of (in_words K.Key.kind) (M.Memory.meaning memory.old).live leaf count }
{
    let mut best = None;
    // Counted, as in `elements`.
    for slot in 0..count {
        let key = key_at(memory, leaf, slot);
        best = Some(greatest_with::<K>(key, best));
    }
    best
}

// What an element says of its key.
fn held(e: Element) -> Option<u64>
    ensures { result ≡ held_by e }
{
    (e.sign == 1).then_some(e.reading)
}

// The reading that the elements leave the key with.
pub(crate) fn find(elements: &[Element], key: (u64, u64)) -> Option<u64>
    ensures { result ≡ latest key elements.now }
{
    elements
        .iter()
        .rev()
        .find(|e| e.key == key)
        .copied()
        .and_then(held)
}
