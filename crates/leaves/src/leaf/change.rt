// What the calls make of a leaf's pairs, for every list of elements that the leaf may count.
ghost use Rattle.std.specs.Prelude.{◌≡◌, ◌≤◌, [], length};
ghost use Rattle.fixed_vec.specs.Items.{items, joined};
ghost use Rattle.keys.specs.InWords.{in_words};
ghost use Rattle.leaves.specs.Pairs.{insert, delete, folded, latest};

use super::{Elements, Pair, Run};
use crate::leaf::read::find;
use crate::leaf::sorted::{load, put_pair, take_key};
use keys::Key;

// The reading that the elements leave the key with.
pub fn held_in(elements: &Elements, key: (u64, u64)) -> Option<u64>
    ensures { result ≡ latest key (items elements.now) }
{
    find(elements.as_slice(), key)
}

// The pairs that the elements come to, of which a leaf has at most 16.
pub fn pairs_of<K: Key>(elements: &Elements) -> Run
    ensures value { items result ≡ folded (in_words K.Key.kind) [] (items elements.now) }
    ensures fits { length (items result) ≤ 16 }
{
    load::<K>(elements)
}

// The pairs after a put.
pub fn put_into<K: Key>(elements: &Elements, pair: Pair) -> Run
    ensures { items result ≡ insert (in_words K.Key.kind) pair (folded (in_words K.Key.kind) [] (items elements.now)) }
{
    let mut after = load::<K>(elements);
    put_pair::<K>(&mut after, pair);
    after
}

// The pairs after a change: the pair that is put takes the place of the one that the key has.
pub fn change_in<K: Key>(elements: &Elements, pair: Pair) -> Run
    ensures { items result ≡ insert (in_words K.Key.kind) pair (delete pair.key (folded (in_words K.Key.kind) [] (items elements.now))) }
{
    let mut run = load::<K>(elements);
    put_pair::<K>(&mut run, pair);
    run
}

// The pairs after a remove.
pub fn remove_from<K: Key>(elements: &Elements, key: (u64, u64)) -> Run
    ensures value { items result ≡ delete key (folded (in_words K.Key.kind) [] (items elements.now)) }
    ensures fits { length (items result) ≤ 16 }
{
    let mut run = load::<K>(elements);
    take_key::<K>(&mut run, key);
    run
}

// The pairs of two leaves that merge, those of the left one first; the left ones alone where there is no room for all.
pub fn both(left: &Run, right: &Run) -> Run
    ensures { items result ≡ joined 17 (items left.now) (items right.now) }
{
    let mut all = *left;
    let _ = all.extend_from_slice(right.as_slice());
    all
}
