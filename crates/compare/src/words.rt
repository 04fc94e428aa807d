// A memory as plain words, by the rules: live and firm, and the steps left.
use crate::shown::{Layer, places};
use std::alloc::{AllocError, Global};

pub const OUTSIDE: u64 = 1;

pub const NO_POWER: u64 = 2;

pub const UNSETTLED: u64 = 3;

// One store or one flush.
#[derive(Clone, Copy)]
pub enum Step {
    Store { at: usize, word: u64 },
    Flush { line: usize },
}

// The words of the bottom memory; `places` has the bottom word under each word that is seen from above. No number of steps: a memory
// that writes through.
#[derive(Drop)]
pub struct Memory {
    pub live: Vec<u64>,
    pub firm: Vec<u64>,
    pub steps: Option<u64>,
    places: Vec<usize>,
}

// The word in a list, 0 where there is none.
pub fn word(words: &[u64], at: usize) -> u64 {
    words.get(at).copied().unwrap_or(0)
}

pub fn set(words: &mut Vec<u64>, at: usize, word: u64) {
    if let Some(place) = words.get_mut(at) {
        *place = word;
    }
}

impl Memory {
    pub fn new(
        alloc: Global,
        live: &[u64],
        firm: &[u64],
        steps: Option<u64>,
        layers: &[Layer],
    ) -> Result<Self, AllocError> {
        let size = live.len().min(firm.len());
        Ok(Memory {
            live: Vec::from_slice(alloc, live)?,
            firm: Vec::from_slice(alloc, firm)?,
            steps,
            places: places(alloc, size, layers)?,
        })
    }

    // The words that the runs at the bottom share.
    pub fn bottom(&self) -> usize {
        self.live.len().min(self.firm.len())
    }

    pub fn size(&self) -> usize {
        self.places.len()
    }

    // How many words of the bottom memory are live and firm not alike: a cut may leave these old or new.
    pub fn unsettled(&self) -> usize {
        let mut many = 0_usize;
        for (live, firm) in self.live.iter().zip(self.firm.iter()) {
            if live != firm {
                many = many.saturating_add(1);
            }
        }
        many
    }

    // The bottom word under a word.
    pub fn place(&self, at: usize) -> Option<usize> {
        self.places.get(at).copied()
    }

    pub fn read(&self, at: usize) -> u64 {
        match self.place(at) {
            Some(place) => word(self.live.as_slice(), place),
            None => 0,
        }
    }

    fn store(&mut self, at: usize, new: u64) -> Result<(), u64> {
        let place = self.place(at).ok_or(OUTSIDE)?;
        match self.steps {
            None => set(&mut self.firm, place, new),
            Some(0) => return Err(NO_POWER),
            Some(left) => {
                if word(self.live.as_slice(), place) != word(self.firm.as_slice(), place) {
                    return Err(UNSETTLED);
                }
                self.steps = Some(left.saturating_sub(1));
            }
        }
        set(&mut self.live, place, new);
        Ok(())
    }

    fn flush(&mut self, line: usize) -> Result<(), u64> {
        let first = self.place(line.saturating_mul(8)).ok_or(OUTSIDE)?;
        match self.steps {
            None => (),
            Some(0) => return Err(NO_POWER),
            Some(left) => self.steps = Some(left.saturating_sub(1)),
        }
        for i in 0..8usize {
            self.settle_word(first.saturating_add(i), true);
        }
        Ok(())
    }

    // A word of both runs becomes its live or its firm content.
    fn settle_word(&mut self, at: usize, keeps_live: bool) {
        if at >= self.bottom() {
            return;
        }
        if keeps_live {
            let kept = word(self.live.as_slice(), at);
            set(&mut self.firm, at, kept);
        } else {
            let kept = word(self.firm.as_slice(), at);
            set(&mut self.live, at, kept);
        }
    }

    fn step(&mut self, step: Step) -> Result<(), u64> {
        match step {
            Step::Store { at, word } => self.store(at, word),
            Step::Flush { line } => self.flush(line),
        }
    }

    // Takes steps in their order, up to the first that is refused: how many were granted, and the refusal.
    pub fn take(&mut self, steps: &[Step]) -> (usize, Option<u64>) {
        for (granted, step) in steps.iter().enumerate() {
            if let Err(number) = self.step(*step) {
                return (granted, Some(number));
            }
        }
        (steps.len(), None)
    }

    // A cut: odd choices keep live, even ones firm. False, and nothing changes, where the choices are too few.
    pub fn cut(&mut self, choices: &[u64], steps: u64) -> bool {
        if self.steps.is_none() {
            return true;
        }
        if choices.len() < self.bottom() {
            return false;
        }
        for (i, choice) in choices.iter().enumerate() {
            self.settle_word(i, choice % 2 == 1);
        }
        self.steps = Some(steps);
        true
    }
}
