// Lists of calls on a logbook, made by a linear congruence, so that any program that plays a list plays the same one.
use keys::stamp::Stamp;
use memory::Memory;
use refusal::Refusal;
use tree::logbook::Logbook;
use tree::logbook::carry::Halt;

// A round puts so many keys, each once.
pub const KEYS: u64 = 256;

#[derive(Clone, Copy, PartialEq, Eq)]
pub enum Kind {
    Put,
    Change,
    Remove,
    Find,
    Next,
}

// The calls that were granted, and sums of what they told, modulo 2^64.
#[derive(Clone, Copy)]
pub struct Totals {
    pub granted: u64,
    pub steps: u64,
    pub readings: u64,
}

impl Totals {
    pub fn new() -> Self {
        Totals {
            granted: 0,
            steps: 0,
            readings: 0,
        }
    }

    fn add(&mut self, steps: usize, reading: u64) {
        self.granted = self.granted.wrapping_add(1);
        self.steps = self.steps.wrapping_add(steps as u64);
        self.readings = self.readings.wrapping_add(reading);
    }
}

// The next number of the congruence.
pub fn after(seed: u64) -> u64 {
    seed.wrapping_mul(6_364_136_223_846_793_005)
        .wrapping_add(1_442_695_040_888_963_407)
}

// The key of call i of a pass: puts and removes go over all keys in an order of no kind, the others choose one by a number.
pub fn chosen(kind: Kind, i: u64, seed: u64, number: u64) -> u64 {
    let k = match kind {
        Kind::Put => i.wrapping_mul(167).wrapping_add(seed),
        Kind::Remove => i.wrapping_mul(91).wrapping_add(seed),
        _ => number >> 32,
    };
    k % KEYS
}

// What a granted call tells: its steps and its reading.
pub fn call<M: Memory>(
    book: &mut Logbook<Stamp, M>,
    kind: Kind,
    key: &Stamp,
    reading: u64,
) -> Result<(usize, u64), Halt> {
    match kind {
        Kind::Put => Ok((book.put(key, reading)?, 0)),
        Kind::Change => Ok((book.change(key, reading)?, 0)),
        Kind::Remove => {
            let removed = book.remove(key)?;
            Ok((removed.steps, removed.reading))
        }
        Kind::Find => Ok((0, book.find(key)?)),
        Kind::Next => Ok((0, book.next(key)?.reading)),
    }
}

// As many calls of one kind as there are keys.
fn pass<M: Memory>(
    book: &mut Logbook<Stamp, M>,
    kind: Kind,
    seed: u64,
    totals: &mut Totals,
) -> Result<u64, Refusal> {
    let mut number = seed;
    for i in 0..KEYS {
        number = after(number);
        let k = chosen(kind, i, seed, number);
        let key = Stamp::new(2024, k.wrapping_add(1), k.wrapping_mul(1000))?;
        if let Ok((steps, reading)) = call(book, kind, &key, number) {
            totals.add(steps, reading);
        }
    }
    Ok(number)
}

// A round: an empty book of 64 leaves, a pass of puts, and a pass of another kind.
pub fn round<M: Memory>(
    book: &mut Logbook<Stamp, M>,
    kind: Kind,
    seed: u64,
    totals: &mut Totals,
) -> Result<u64, Refusal> {
    book.format(64)?;
    let seed = pass(book, Kind::Put, seed, totals)?;
    if kind == Kind::Put {
        return Ok(seed);
    }
    pass(book, kind, seed, totals)
}
