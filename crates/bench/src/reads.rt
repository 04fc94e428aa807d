// What the calls read: for each sort of call the most that one call of it read.
use crate::calls::{KEYS, Kind, after, call, chosen};
use crate::tally::{Tally, WORDS};
use keys::stamp::Stamp;
use makes::probe::Probe;
use makes::through::Through;
use refusal::Refusal;
use tree::logbook::Logbook;

// Calls of one sort, and the most of any of them: words read, leaves that they lie in, reads of one word; and the words read
// that were neither a leaf's own nor in a slot that it counted.
#[derive(Clone, Copy)]
pub struct Reads {
    pub calls: u64,
    pub words: u64,
    pub leaves: u64,
    pub of_a_word: u64,
    pub outside: u64,
}

impl Reads {
    pub fn new() -> Self {
        Reads {
            calls: 0,
            words: 0,
            leaves: 0,
            of_a_word: 0,
            outside: 0,
        }
    }

    // With one call more.
    fn join(&mut self, one: &Reads) {
        self.calls = self.calls.wrapping_add(one.calls);
        self.words = self.words.max(one.words);
        self.leaves = self.leaves.max(one.leaves);
        self.of_a_word = self.of_a_word.max(one.of_a_word);
        self.outside = self.outside.max(one.outside);
    }
}

// The sorts of calls: the three that write, by an append and by a rewrite, find and next.
#[derive(Clone, Copy)]
pub struct Sorts {
    pub append: Reads,
    pub rewrite: Reads,
}

impl Sorts {
    pub fn new() -> Self {
        Sorts {
            append: Reads::new(),
            rewrite: Reads::new(),
        }
    }
}

// How many elements each leaf counts.
fn counts(words: &[u64]) -> [u64; 64] {
    let mut all = [0; 64];
    for leaf in 0..64 {
        all[leaf] = words.get(9 + 72 * leaf).copied().unwrap_or(0);
    }
    all
}

// Whether word `at` of a leaf is one of its own three or lies in a slot that it counts.
fn is_counted(at: usize, count: u64) -> bool {
    at < 3 || (at >= 8 && (((at - 8) / 4) as u64) < count)
}

// Reads of one leaf's words, or of the head's.
fn of_part(reads: &[u64], count: u64, head: bool) -> Reads {
    let mut all = Reads::new();
    for (i, &n) in reads.iter().enumerate() {
        if n > 0 {
            all.words = all.words.saturating_add(1);
            all.of_a_word = all.of_a_word.max(n);
            if !head && !is_counted(i, count) {
                all.outside = all.outside.saturating_add(1);
            }
        }
    }
    all.leaves = if !head && all.words > 0 { 1 } else { 0 };
    all
}

// What one call read, of leaves that counted so much before it.
fn of_call(reads: &[u64], counts: &[u64; 64]) -> Reads {
    let mut all = of_part(reads.get(..8).unwrap_or(&[]), 0, true);
    for leaf in 0..64 {
        let start = 8 + 72 * leaf;
        let one = of_part(
            reads.get(start..start + 72).unwrap_or(&[]),
            counts[leaf],
            false,
        );
        all.words = all.words.saturating_add(one.words);
        all.leaves = all.leaves.saturating_add(one.leaves);
        all.of_a_word = all.of_a_word.max(one.of_a_word);
        all.outside = all.outside.saturating_add(one.outside);
    }
    all.calls = 1;
    all
}

type Counted<'a> = Logbook<Stamp, Tally<Through<'a>>>;

// One call, and what it read, in its place: an append takes 7 or 12 steps, and no rewrite does.
fn one(book: &mut Counted<'_>, kind: Kind, key: &Stamp, reading: u64, sorts: &mut Sorts) {
    let before = counts(book.memory().memory().words().0);
    book.memory_mut().restart();
    let told = call(book, kind, key, reading);
    let read = of_call(book.memory().reads(), &before);
    match told {
        Ok((0 | 7 | 12, _)) => sorts.append.join(&read),
        Ok(_) => sorts.rewrite.join(&read),
        Err(_) => {}
    }
}

// A pass of calls of one kind.
fn pass(book: &mut Counted<'_>, kind: Kind, seed: u64, sorts: &mut Sorts) -> Result<u64, Refusal> {
    let mut number = seed;
    for i in 0..KEYS {
        number = after(number);
        let k = chosen(kind, i, seed, number);
        let key = Stamp::new(2024, k.wrapping_add(1), k.wrapping_mul(1000))?;
        one(book, kind, &key, number, sorts);
    }
    Ok(number)
}

// Four rounds of a kind, as they are played for the counting of instructions.
pub fn measured(kind: Kind) -> Result<Sorts, Refusal> {
    let mut words = [0; WORDS];
    let mut book = Counted::new(Tally::new(Through::new(&mut words)));
    let mut sorts = Sorts::new();
    let mut seed = 1;
    for _ in 0..4 {
        book.format(64)?;
        let mut puts = Sorts::new();
        seed = pass(&mut book, Kind::Put, seed, &mut puts)?;
        if kind == Kind::Put {
            sorts.append.join(&puts.append);
            sorts.rewrite.join(&puts.rewrite);
        } else {
            seed = pass(&mut book, kind, seed, &mut sorts)?;
        }
    }
    Ok(sorts)
}
