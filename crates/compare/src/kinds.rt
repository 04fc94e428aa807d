// The two kinds of key, in words: the code, which words are a key, and the order.
use crate::dice::Dice;

// The two words of a key.
pub type Words = (u64, u64);

#[derive(Clone, Copy, PartialEq, Eq)]
pub enum Kind {
    Stamp,
    Port,
}

fn is_leap(year: u64) -> bool {
    year % 400 == 0 || (year % 4 == 0 && year % 100 != 0)
}

pub fn is_stamp(year: u64, day: u64, millisecond: u64) -> bool {
    let days = if is_leap(year) { 366 } else { 365 };
    (2000..2400).contains(&year) && (1..=days).contains(&day) && millisecond < 24 * 3_600_000
}

pub fn is_port(identity: u64, number: u64) -> bool {
    identity != u64::MAX && (1..65_535).contains(&number)
}

// Keys of neighbouring numbers are near one another, but not all in the order of the numbers, nor in that of their first words.
fn stamp(number: u64) -> Words {
    let day = number % 365 + 1;
    let year = number / 365 % 400 + 2000;
    let millisecond = number.wrapping_mul(7_919) % 86_400_000;
    (millisecond, year.wrapping_mul(512).wrapping_add(day))
}

fn port(number: u64) -> Words {
    let identity = (number / 7).wrapping_mul(0x001b_19ff_fe00_0001);
    (identity, 65_534 - number % 7)
}

impl Kind {
    pub fn code(self) -> u64 {
        match self {
            Kind::Stamp => 1,
            Kind::Port => 2,
        }
    }

    // Words in the order in which they are compared.
    fn rank(self, words: Words) -> Words {
        match self {
            Kind::Stamp => (words.1, words.0),
            Kind::Port => words,
        }
    }

    pub fn before(self, a: Words, b: Words) -> bool {
        self.rank(a) < self.rank(b)
    }

    pub fn is_key(self, words: Words) -> bool {
        match self {
            Kind::Stamp => is_stamp(words.1 / 512, words.1 % 512, words.0),
            Kind::Port => is_port(words.0, words.1),
        }
    }

    // The key of a number.
    pub fn key(self, number: u64) -> Words {
        match self {
            Kind::Stamp => stamp(number),
            Kind::Port => port(number),
        }
    }

    pub fn any(dice: &mut Dice) -> Self {
        if dice.once_in(2) {
            Kind::Stamp
        } else {
            Kind::Port
        }
    }
}
