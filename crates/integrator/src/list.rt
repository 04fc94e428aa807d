// A list of calls and one cut.
use crate::play::WORDS;
use own_key::gps::GpsTime;
use refusal::Refusal;
use session::act::Act;

pub const LEAVES: usize = 2;

// A format takes 12 steps and each of the first two puts 7; the third put has 6, and lacks the last.
pub const STEPS: u64 = 32;

// The choices of a cut that keeps the live word everywhere, and of one that keeps the firm word.
pub const KEEPS_LIVE: [u64; WORDS] = [1; WORDS];

pub const KEEPS_FIRM: [u64; WORDS] = [0; WORDS];

// Three puts around the end of a week, the last of which lacks power, a cut, and three questions.
pub fn acts() -> Result<[Act<GpsTime>; 7], Refusal> {
    let last = GpsTime::new(2400, 604_799)?;
    let first = GpsTime::new(2401, 0)?;
    let second = GpsTime::new(2401, 1)?;
    Ok([
        Act::Put {
            key: last,
            reading: 11,
        },
        Act::Put {
            key: first,
            reading: 12,
        },
        Act::Put {
            key: second,
            reading: 13,
        },
        Act::Cut {
            from: 0,
            steps: 100,
        },
        Act::Find { key: second },
        Act::Next { key: last },
        Act::Pairs,
    ])
}
