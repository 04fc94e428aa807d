//! Kinds of key: a code, an order and a form as two words.
#![tactic(auto)]

ghost use Rattle.std.specs.Prelude.{◌≡◌, true, false, if◌then◌else◌};
ghost use Rattle.keys.specs.InWords.{in_words, WordOrdered};
ghost use Rattle.keys.specs.Kind.{Kind, Ordered, Formed, unpacked};
ghost use Rattle.std.specs.Ordering.{MatchOrdering};

pub mod calendar;
pub mod port;
pub mod stamp;

use refusal::Refusal;
use std::cmp::Ordering;

pub trait Key: Copy {
    ghost kind: { Kind Self };

    // The code of the kind, as a memory's word 1 holds it; kinds themselves are types.
    fn code() -> u64
        ensures { result ≡ kind.code };

    // The key as two words.
    fn pack(&self) -> (u64, u64)
        ensures { result ≡ kind.form self.now };

    // The key that two words are, or the refusal of words that are no key.
    fn unpack(words: (u64, u64)) -> Result<Self, Refusal>
        ensures { result ≡ unpacked kind words };

    // Whether the key stands before another one.
    fn before(&self, other: &Self) -> bool
        ensures { result ≡ kind.before self.now other.now };

    // The order of all pairs of words: keys in their order, before what is no key.
    fn pair_before(a: (u64, u64), b: (u64, u64)) -> bool
        ensures { result ≡ (in_words kind).before a b }
    {
        match (Self::unpack(a), Self::unpack(b)) {
            (Ok(x), Ok(y)) => x.before(&y),
            (Ok(_), Err(_)) => true,
            (Err(_), Ok(_)) => false,
            (Err(_), Err(_)) => a < b,
        }
    }

    // Whether a pair of words stands before a key.
    fn stands_before(words: (u64, u64), key: &Self) -> bool
        ensures { result ≡ (in_words kind).before words (kind.form key.now) }
    {
        Self::pair_before(words, key.pack())
    }

    ghost ordered: { Ordered kind };

    ghost formed: { Formed kind };
}

// What is said of two things by whether the first stands before the second, and the second before the first.
fn ordering(first: bool, second: bool) -> Ordering
    ensures { MatchOrdering result (first ≡ true) ((first ≡ false) × (second ≡ false)) (second ≡ true) }
{
    match (first, second) {
        (true, _) => Ordering::Less,
        (false, true) => Ordering::Greater,
        (false, false) => Ordering::Equal,
    }
}

// Which of two keys stands before the other, if they are not one key.
pub fn compare<K: Key>(a: &K, b: &K) -> Ordering
    ensures { MatchOrdering result (K.kind.before a.now b.now ≡ true) (a.now ≡ b.now) (K.kind.before b.now a.now ≡ true) }
{
    ordering(a.before(b), b.before(a))
}

// The later of two pairs of words, where a pair that is no key counts as later than every key.
pub fn greater<K: Key>(a: (u64, u64), b: (u64, u64)) -> (u64, u64)
    ensures chosen { result ≡ (if (in_words K.kind).before a b then b else a) }
    ensures latest { ((in_words K.kind).before result a ≡ false) × ((in_words K.kind).before result b ≡ false) }
{
    if K::pair_before(a, b) { b } else { a }
}

// Which of two pairs of words stands before the other, if they are not one pair.
pub fn compare_words<K: Key>(a: (u64, u64), b: (u64, u64)) -> Ordering
    ensures { MatchOrdering result ((in_words K.kind).before a b ≡ true) (a ≡ b) ((in_words K.kind).before b a ≡ true) }
{
    ordering(K::pair_before(a, b), K::pair_before(b, a))
}

// The order of all pairs of words has the laws of an order, whatever the kind.
pub fn word_order_stands<K: Key>()
    ensures { WordOrdered (in_words K.kind) }
{}
