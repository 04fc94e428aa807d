// Checking one leaf, for every content of the memory.
ghost use Rattle.std.specs.Prelude.{◌≡◌, ◌≤◌, ◌&&◌, ◌||◌, ◌==◌, [], Ok, nat_le, nat_lt};
ghost use Rattle.keys.specs.InWords.{in_words};
ghost use Rattle.leaves.specs.Layout.{Within, count_of, elements as elements_of};
ghost use Rattle.leaves.specs.Pairs.{folded};
ghost use Rattle.leaves.specs.Opening.{sign_fits, after as after_bound, bad_leaf_of, good as good_element, first_bad_of, leaf_fault, checked, greatest as greatest_of, greatest_key};

use super::{Element, Elements};
use crate::leaf::read::{element, find, start_of, word_at};
use crate::open::Fault;
use keys::{Key, greater};
use memory::Memory;
use refusal::Refusal;

// Whether two words are a key.
fn is_key<K: Key>(words: (u64, u64)) -> bool
    ensures { result ≡ (in_words K.Key.kind).valid words }
{
    K::unpack(words).is_ok()
}

fn fits(e: Element, held: Option<u64>) -> bool
    ensures { result ≡ sign_fits e.sign e.reading held }
{
    match held {
        None => e.sign == 1,
        Some(reading) => e.sign == 2 && e.reading == reading,
    }
}

fn after<K: Key>(bound: Option<(u64, u64)>, key: (u64, u64)) -> bool
    ensures { result ≡ after_bound (in_words K.Key.kind) bound key }
{
    bound.is_none_or(|b| K::pair_before(b, key))
}

// Whether an element is good after the older ones of its leaf and the bound of the leaf before.
fn good<K: Key>(older: &[Element], e: Element, bound: Option<(u64, u64)>) -> bool
    ensures { result ≡ good_element (in_words K.Key.kind) bound (folded (in_words K.Key.kind) [] older.now) e }
{
    is_key::<K>(e.key) && after::<K>(bound, e.key) && fits(e, find(older, e.key))
}

// A leaf with a fault in a slot, counted from 1, or as a whole.
fn bad_leaf(leaf: usize, slot: usize) -> Fault
    ensures { result ≡ bad_leaf_of leaf slot }
{
    Fault {
        refusal: Refusal::BadLeaf,
        leaf,
        slot,
    }
}

// The greatest key of the elements, if there are any.
fn greatest<K: Key>(elements: &[Element]) -> Option<(u64, u64)>
    ensures { result ≡ greatest_key (in_words K.Key.kind) elements.now }
{
    elements
        .iter()
        .map(|e| e.key)
        .reduce(|a, b| greater::<K>(a, b))
}

// The greatest key of the oldest `count` elements of the leaf, or the fault of the first bad one, after which no word is read.
fn check_slots<K: Key, M: Memory>(
    memory: &mut M,
    leaf: usize,
    count: usize,
    bound: Option<(u64, u64)>,
) -> Result<Option<(u64, u64)>, Fault>
    requires { (Within (M.Memory.meaning memory.old).live leaf) × (count ≤ 16) }
    ensures same { M.Memory.meaning memory.new ≡ M.Memory.meaning memory.old }
    ensures value { result ≡ checked leaf (first_bad_of (in_words K.Key.kind) bound [] 0 (elements_of (M.Memory.meaning memory.old).live leaf count)) (Ok (greatest_key (in_words K.Key.kind) (elements_of (M.Memory.meaning memory.old).live leaf count))) }
{
    let mut read = Elements::new(Element::default());
    // Counted: the memory is asked by the number of a slot, and each element is judged before the next one is read.
    for slot in 0..count {
        let e = element(memory, leaf, slot);
        if !good::<K>(read.as_slice(), e, bound) {
            return Err(bad_leaf(leaf, slot + 1));
        }
        read.push(e).unwrap();
    }
    Ok(greatest::<K>(read.as_slice()))
}

// Whether a leaf can be one of a chain, by what it counts, its form, and whether it is the only one.
fn can_stand(count: u64, form: u64, alone: bool) -> bool
    ensures { result ≡ (nat_le count 16 && form == 0 && (alone || nat_lt 0 count)) }
{
    count <= 16 && form == 0 && (alone || count > 0)
}

// The bound for the next leaf, which is the greatest key of this one, or the fault of this one.
pub(crate) fn check<K: Key, M: Memory>(
    memory: &mut M,
    leaf: usize,
    bound: Option<(u64, u64)>,
    alone: bool,
) -> Result<Option<(u64, u64)>, Fault>
    requires { Within (M.Memory.meaning memory.old).live leaf }
    ensures same { M.Memory.meaning memory.new ≡ M.Memory.meaning memory.old }
    ensures value { result ≡ checked leaf (leaf_fault (in_words K.Key.kind) (M.Memory.meaning memory.old).live bound alone leaf) (Ok (greatest_of (in_words K.Key.kind) (M.Memory.meaning memory.old).live leaf (count_of (M.Memory.meaning memory.old).live leaf))) }
{
    let start = start_of(leaf);
    let count = word_at(memory, start + 1);
    let form = word_at(memory, start + 2);
    if !can_stand(count, form, alone) {
        return Err(bad_leaf(leaf, 0));
    }
    check_slots::<K, M>(memory, leaf, count as usize, bound)
}
