// What a list does for a while: which calls, and of which keys.
use crate::dice::Dice;

// What calls there are most of for a while, and how their keys are chosen.
#[derive(Clone, Copy)]
pub struct Mood {
    pub weights: [u64; 7],
    keys: Keys,
    pub calls: u64,
}

// One after the other, any, or any of a few neighbours.
#[derive(Clone, Copy)]
pub enum Keys {
    Rising,
    Any,
    Near { from: u64 },
}

// Put, change, remove, find, next, pairs and node, of a hundred.
const GROWS: [u64; 7] = [76, 8, 4, 4, 4, 2, 2];

const CHANGES: [u64; 7] = [10, 70, 8, 4, 4, 2, 2];

const SHRINKS: [u64; 7] = [6, 12, 70, 4, 4, 2, 2];

pub fn any_mood(dice: &mut Dice, keys: u64) -> Mood {
    let near = Keys::Near {
        from: dice.below(keys),
    };
    let (weights, keys) = match dice.below(9) {
        0 | 1 => (GROWS, Keys::Rising),
        2 => (GROWS, Keys::Any),
        3 | 4 => (CHANGES, near),
        5 => (CHANGES, Keys::Any),
        6 | 7 => (SHRINKS, near),
        _ => (SHRINKS, Keys::Any),
    };
    Mood {
        weights,
        keys,
        calls: dice.below(60).saturating_add(10),
    }
}

// A third of a list makes the book that the rest works on.
pub fn first_mood(dice: &mut Dice, calls: usize) -> Mood {
    Mood {
        weights: GROWS,
        keys: if dice.once_in(2) {
            Keys::Rising
        } else {
            Keys::Any
        },
        calls: (calls / 3) as u64,
    }
}

// The number of the next key, of so many, by the one before.
pub fn next_number(dice: &mut Dice, mood: &Mood, keys: u64, before: u64) -> u64 {
    let number = match mood.keys {
        Keys::Rising => before.wrapping_add(1),
        Keys::Any => dice.below(keys),
        Keys::Near { from } => from.wrapping_add(dice.below(9)),
    };
    number % keys.max(1)
}

// One of the calls by their weights.
pub fn weighed(dice: &mut Dice, weights: &[u64; 7]) -> usize {
    let mut all = 0_u64;
    for weight in weights {
        all = all.saturating_add(*weight);
    }
    let mut left = dice.below(all);
    for (i, weight) in weights.iter().enumerate() {
        if left < *weight {
            return i;
        }
        left = left.saturating_sub(*weight);
    }
    0
}
