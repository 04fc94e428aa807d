// The pairs of a leaf as a run in the order of their keys, for every content of the memory.
ghost use Rattle.std.specs.Prelude.{◌≡◌, ◌≤◌, ◌&&◌, [], length, not, Some, if◌then◌else◌};
ghost use Rattle.std.specs.List.{prefix_len};
ghost use Rattle.fixed_vec.specs.Items.{items};
ghost use Rattle.keys.specs.InWords.{in_words};
ghost use Rattle.leaves.specs.Ascent.{Ascending};
ghost use Rattle.leaves.specs.Pairs.{insert, delete, applied as applied_to, folded, first_after};
ghost use Rattle.leaves.specs.Steps.{nearer, own_at, pair_of, tells};

use super::{Element, Elements, Pair, Run};
use keys::Key;

// No pairs yet. A leaf's 16 elements come to at most 16 pairs, so what is pushed onto a run always has room.
fn empty() -> Run
    ensures { items result ≡ [] }
{
    Run::new(Pair::default())
}

// Takes the key's pair out, if there is one.
pub(crate) fn take_key<K: Key>(run: &mut Run, key: (u64, u64))
    requires { Ascending (in_words K.Key.kind) (items run.old) }
    ensures { items run.new ≡ delete key (items run.old) }
{
    if let Some(at) = run.as_slice().iter().position(|pair| pair.key == key) {
        run.remove(at);
    }
}

// How many pairs stand before the place of words that may be no key.
fn place_of_words<K: Key>(pairs: &[Pair], words: (u64, u64)) -> usize
    ensures { result ≡ prefix_len (λ p. (in_words K.Key.kind).before p.key words) pairs.now }
{
    pairs
        .iter()
        .take_while(|p| K::pair_before(p.key, words))
        .count()
}

// How many pairs stand before a key's place, looked for from the last one on.
fn place_of_key<K: Key>(pairs: &[Pair], key: &K) -> usize
    requires { Ascending (in_words K.Key.kind) pairs.now }
    ensures { result ≡ prefix_len (λ p. (in_words K.Key.kind).before p.key (K.Key.kind.form key.now)) pairs.now }
{
    for below in (0..pairs.len()).rev() {
        if K::stands_before(pairs[below].key, key) {
            return below + 1;
        }
    }
    0
}

// How many pairs stand before the words' place.
fn place<K: Key>(pairs: &[Pair], words: (u64, u64)) -> usize
    requires { Ascending (in_words K.Key.kind) pairs.now }
    ensures { result ≡ prefix_len (λ p. (in_words K.Key.kind).before p.key words) pairs.now }
{
    match K::unpack(words) {
        Ok(key) => place_of_key::<K>(pairs, &key),
        Err(_) => place_of_words::<K>(pairs, words),
    }
}

// Whether the pair at a place, if there is one, is the key's.
fn is_at(pairs: &[Pair], at: usize, key: (u64, u64)) -> bool
    ensures { result ≡ own_at key at pairs.now }
{
    match pairs.get(at) {
        None => false,
        Some(pair) => pair.key == key,
    }
}

// Puts a pair in its place.
pub(crate) fn put_pair<K: Key>(run: &mut Run, pair: Pair)
    requires few { length (items run.old) ≤ 16 }
    requires ascending { Ascending (in_words K.Key.kind) (items run.old) }
    ensures { items run.new ≡ insert (in_words K.Key.kind) pair (items run.old) }
{
    let place = place::<K>(run.as_slice(), pair.key);
    if is_at(run.as_slice(), place, pair.key) {
        run.replace(place, pair);
    } else {
        run.insert(place, pair).unwrap();
    }
}

fn apply<K: Key>(run: &mut Run, e: Element)
    requires few { length (items run.old) ≤ 16 }
    requires ascending { Ascending (in_words K.Key.kind) (items run.old) }
    ensures { items run.new ≡ applied_to (in_words K.Key.kind) e (items run.old) }
{
    if e.sign == 1 {
        let pair = Pair {
            key: e.key,
            reading: e.reading,
        };
        put_pair::<K>(run, pair);
    } else {
        take_key::<K>(run, e.key);
    }
}

// The pairs that the elements come to.
pub(crate) fn load<K: Key>(elements: &Elements) -> Run
    ensures value { items result ≡ folded (in_words K.Key.kind) [] (items elements.now) }
    ensures fits { length (items result) ≤ 16 }
{
    let mut run = empty();
    for e in elements.as_slice() {
        apply::<K>(&mut run, *e);
    }
    run
}

// Whether an element puts a pair after the key, and before another one if there is one.
fn is_nearer<K: Key>(key: (u64, u64), e: Element, best: Option<Pair>) -> bool
    ensures { result ≡ nearer (in_words K.Key.kind) key e best }
{
    if e.sign != 1 || !K::pair_before(key, e.key) {
        return false;
    }
    match best {
        None => true,
        Some(pair) => K::pair_before(e.key, pair.key),
    }
}

// Whether one of the elements is the key's.
fn has_key(elements: &[Element], key: (u64, u64)) -> bool
    ensures { result ≡ tells key elements.now }
{
    elements.iter().any(|e| e.key == key)
}

// The first pair after the key with an element more than those that are newer, where `best` is the first without it.
fn nearest<K: Key>(
    key: (u64, u64),
    e: Element,
    newer: &[Element],
    best: Option<Pair>,
) -> Option<Pair>
    ensures { result ≡ (if nearer (in_words K.Key.kind) key e best && not (tells e.key newer.now) then Some (pair_of e) else best) }
{
    if !is_nearer::<K>(key, e, best) || has_key(newer, e.key) {
        return best;
    }
    Some(Pair {
        key: e.key,
        reading: e.reading,
    })
}

// The first pair after the key, of those that the elements come to; the newest is asked first.
pub(crate) fn next<K: Key>(elements: &[Element], key: (u64, u64)) -> Option<Pair>
    ensures { result ≡ first_after (in_words K.Key.kind) key (folded (in_words K.Key.kind) [] elements.now) }
{
    let mut best = None;
    for slot in (0..elements.len()).rev() {
        best = nearest::<K>(key, elements[slot], &elements[slot + 1..], best);
    }
    best
}
