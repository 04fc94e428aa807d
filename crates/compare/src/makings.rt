// Keys made from random numbers near the edges of what is taken, against the rules.
use crate::dice::Dice;
use crate::difference::What;
use crate::kinds::{Kind, Words, is_port, is_stamp};
use crate::tally::{Tally, count};
use keys::Key;
use keys::port::Port;
use keys::stamp::Stamp;

fn near(dice: &mut Dice, edge: u64) -> u64 {
    edge.wrapping_add(dice.below(5)).wrapping_sub(2)
}

fn day(dice: &mut Dice) -> u64 {
    match dice.below(4) {
        0 => near(dice, 0),
        1 => near(dice, 365),
        2 => near(dice, 512),
        _ => dice.below(400),
    }
}

fn year(dice: &mut Dice) -> u64 {
    match dice.below(6) {
        0 => near(dice, 2000),
        1 => near(dice, 2399),
        2 => dice.below(5).wrapping_mul(100).wrapping_add(1900),
        3 => dice.roll(),
        _ => dice.below(440).wrapping_add(1980),
    }
}

fn millisecond(dice: &mut Dice) -> u64 {
    match dice.below(4) {
        0 => near(dice, 86_400_000),
        1 => dice.roll(),
        _ => dice.below(86_400_000),
    }
}

// A key that was made, or not: whether that is right, with its words and the words read back.
fn is_right<K: Key>(made: Option<K>, taken: bool, words: Words, number: u64) -> bool {
    match made {
        Some(key) => taken && key.pack() == words && number == 0,
        None => !taken && number == 10,
    }
}

// The refusal of words that are read as a key, 0 where there is none.
fn reread<K: Key>(words: Words) -> (Option<K>, u64) {
    match K::unpack(words) {
        Ok(key) => (Some(key), 0),
        Err(refusal) => (None, u64::from(refusal.number())),
    }
}

fn compare_stamp(dice: &mut Dice) -> Option<What> {
    let (year, day, millisecond) = (year(dice), day(dice), millisecond(dice));
    let taken = is_stamp(year, day, millisecond);
    let words = (millisecond, year.wrapping_mul(512).wrapping_add(day));
    let (made, number) = match Stamp::new(year, day, millisecond) {
        Ok(key) => (Some(key), 0),
        Err(refusal) => (None, u64::from(refusal.number())),
    };
    (!is_right(made, taken, words, number)).then(|| What::Key { words })
}

fn compare_port(dice: &mut Dice) -> Option<What> {
    let identity = match dice.below(3) {
        0 => near(dice, u64::MAX),
        1 => near(dice, 0),
        _ => dice.roll(),
    };
    let number = match dice.below(4) {
        0 => near(dice, 0),
        1 => near(dice, 65_535),
        2 => dice.roll(),
        _ => dice.below(70_000),
    };
    let words = (identity, number);
    let made = Port::new(identity, number);
    let again = Port::from_octets(identity.to_be_bytes(), number);
    let refusal = match made {
        Ok(_) => 0,
        Err(refusal) => u64::from(refusal.number()),
    };
    let taken = is_port(identity, number);
    let right = is_right(made.ok(), taken, words, refusal) && made.ok() == again.ok();
    (!right).then(|| What::Key { words })
}

// Words that may be a key of a kind.
fn some_words(dice: &mut Dice, kind: Kind) -> Words {
    match dice.below(3) {
        0 => (dice.roll(), dice.roll()),
        1 => kind.key(dice.below(1_000_000)),
        _ => (
            millisecond(dice),
            year(dice).wrapping_mul(512).wrapping_add(day(dice)),
        ),
    }
}

// Two pairs of words, each read as a key, and in their order.
fn compare_words<K: Key>(dice: &mut Dice, kind: Kind, tally: &mut Tally) -> Option<What> {
    let a = some_words(dice, kind);
    let b = some_words(dice, kind);
    let (first, number) = reread::<K>(a);
    tally.refusal(number);
    if !is_right(first, kind.is_key(a), a, number) {
        return Some(What::Key { words: a });
    }
    if let (Some(x), (Some(y), _)) = (first, reread::<K>(b)) {
        if x.before(&y) != kind.before(a, b) {
            return Some(What::Order { a, b });
        }
    }
    None
}

// So many keys of each kind.
pub fn compare_keys(dice: &mut Dice, many: u64, tally: &mut Tally) -> Option<What> {
    for _ in 0..many {
        let found = compare_stamp(dice)
            .or_else(|| compare_port(dice))
            .or_else(|| compare_words::<Stamp>(dice, Kind::Stamp, tally))
            .or_else(|| compare_words::<Port>(dice, Kind::Port, tally));
        if found.is_some() {
            return found;
        }
        count(&mut tally.keys);
    }
    None
}
