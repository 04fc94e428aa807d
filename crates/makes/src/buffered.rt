ghost use Rattle.std.specs.Prelude.{◌≡◌, ℕ};
ghost use Rattle.makes.specs.Makes.{buffered_lawful, buffered_rooted, buffered_words, shared, unshared};
ghost use Rattle.makes.specs.Probes.{poke_answer, poked, supplied};
ghost use Rattle.memory.specs.Meaning.{Freely, after_flush, after_settle, after_store, flush_answer, read_answer, settle_answer, store_answer};

use crate::probe::Probe;
use memory::{Memory, Settle};
use refusal::Refusal;

// A memory over two lent runs, as long as the shorter: the live words, and the firm ones, which only a flush reaches.
// Its steps are set by its maker.
#[derive(Drop)]
pub struct Buffered<'a> {
    live: &'a mut [u64],
    firm: &'a mut [u64],
    steps: u64,
}

impl<'a> Buffered<'a> {
    pub fn new(live: &'a mut [u64], firm: &'a mut [u64], steps: u64) -> Self
        ensures live { result.live.now ≡ live.old }
        ensures firm { result.firm.now ≡ firm.old }
        ensures steps { result.steps ≡ steps }
        ensures lent { (result.live.ghost_name ≡ live.entry.ghost_name) × (result.firm.ghost_name ≡ firm.entry.ghost_name) }
    {
        Buffered { live, firm, steps }
    }

    pub fn steps_left(&self) -> u64
        ensures { result ≡ self.now.steps }
    {
        let Buffered { steps, .. } = self;
        *steps
    }

    // The live run and the firm one, as they stand.
    pub fn runs(&self) -> (&[u64], &[u64])
        ensures live { result.0.now ≡ self.now.live.now }
        ensures firm { result.1.now ≡ self.now.firm.now }
    {
        (self.live, self.firm)
    }

    // Gives back the live run and the firm one.
    pub fn release(self) -> (&'a mut [u64], &'a mut [u64])
        ensures live { result.0.now ≡ self.entry.live.now }
        ensures firm { result.1.now ≡ self.entry.firm.now }
        ensures lent { (result.0.ghost_name ≡ self.entry.live.ghost_name) × (result.1.ghost_name ≡ self.entry.firm.ghost_name) }
    {
        let Buffered {
            live,
            firm,
            steps: _,
        } = self;
        (live, firm)
    }

    // The words that both runs have.
    fn shared(&self) -> usize
        ensures { result ≡ shared self.now.live.now self.now.firm.now }
    {
        self.live.len().min(self.firm.len())
    }
}

impl Memory for Buffered<'_> {
    ghost meaning = { λ s. buffered_words s.live.now s.firm.now s.steps };

    ghost laws = { λ s. buffered_lawful s.live.now s.firm.now s.steps };

    fn size(&self) -> usize {
        self.shared()
    }

    fn read(&mut self, at: usize) -> Result<u64, Refusal>
        ensures answer { result ≡ read_answer (buffered_words self.old.live.now self.old.firm.now self.old.steps) at }
        ensures after { buffered_words self.new.live.now self.new.firm.now self.new.steps ≡ buffered_words self.old.live.now self.old.firm.now self.old.steps }
        ensures lent { (self.new.live.ghost_name ≡ self.old.live.ghost_name) × (self.new.firm.ghost_name ≡ self.old.firm.ghost_name) }
        ensures rest { unshared self.new.live.now self.new.firm.now ≡ unshared self.old.live.now self.old.firm.now }
    {
        if at >= self.shared() {
            return Err(Refusal::Outside);
        }
        Ok(self.live[at])
    }

    fn store(&mut self, at: usize, word: u64) -> Result<(), Refusal>
        ensures answer { result ≡ store_answer (buffered_words self.old.live.now self.old.firm.now self.old.steps) at }
        ensures after { buffered_words self.new.live.now self.new.firm.now self.new.steps ≡ after_store (buffered_words self.old.live.now self.old.firm.now self.old.steps) at word }
        ensures lent { (self.new.live.ghost_name ≡ self.old.live.ghost_name) × (self.new.firm.ghost_name ≡ self.old.firm.ghost_name) }
        ensures rest { unshared self.new.live.now self.new.firm.now ≡ unshared self.old.live.now self.old.firm.now }
    {
        if at >= self.shared() {
            return Err(Refusal::Outside);
        }
        if self.steps == 0 {
            return Err(Refusal::NoPower);
        }
        if self.live[at] != self.firm[at] {
            return Err(Refusal::Unsettled);
        }
        self.live[at] = word;
        self.steps -= 1;
        Ok(())
    }

    fn flush(&mut self, line: usize) -> Result<(), Refusal>
        ensures answer { result ≡ flush_answer (buffered_words self.old.live.now self.old.firm.now self.old.steps) line }
        ensures after { buffered_words self.new.live.now self.new.firm.now self.new.steps ≡ after_flush (buffered_words self.old.live.now self.old.firm.now self.old.steps) line }
        ensures lent { (self.new.live.ghost_name ≡ self.old.live.ghost_name) × (self.new.firm.ghost_name ≡ self.old.firm.ghost_name) }
        ensures rest { unshared self.new.live.now self.new.firm.now ≡ unshared self.old.live.now self.old.firm.now }
    {
        let size = self.shared();
        if line >= size.div_ceil(8) {
            return Err(Refusal::Outside);
        }
        if self.steps == 0 {
            return Err(Refusal::NoPower);
        }
        let start = 8 * line;
        // Counted: neither run can be lent to a library call while the other is read.
        for i in start..size.min(start + 8) {
            self.firm[i] = self.live[i];
        }
        self.steps -= 1;
        Ok(())
    }
}

impl Settle for Buffered<'_> {
    ghost bottom = { λ s. buffered_words s.live.now s.firm.now s.steps };

    fn choices(&self) -> usize {
        self.shared()
    }

    fn settle(&mut self, choice: &[u64], steps: u64) -> Result<(), Refusal>
        ensures answer { result ≡ settle_answer (buffered_words self.old.live.now self.old.firm.now self.old.steps) choice.now }
        ensures after { buffered_words self.new.live.now self.new.firm.now self.new.steps ≡ after_settle (buffered_words self.old.live.now self.old.firm.now self.old.steps) choice.now steps }
        ensures whole { buffered_words self.new.live.now self.new.firm.now self.new.steps ≡ after_settle (buffered_words self.old.live.now self.old.firm.now self.old.steps) choice.now steps }
        ensures free { Freely (buffered_words self.old.live.now self.old.firm.now self.old.steps) }
        ensures lent { (self.new.live.ghost_name ≡ self.old.live.ghost_name) × (self.new.firm.ghost_name ≡ self.old.firm.ghost_name) }
        ensures rest { unshared self.new.live.now self.new.firm.now ≡ unshared self.old.live.now self.old.firm.now }
    {
        let size = self.shared();
        if choice.len() < size {
            return Err(Refusal::WrongLength);
        }
        for (i, word) in choice[..size].iter().enumerate() {
            if word % 2 == 1 {
                self.firm[i] = self.live[i];
            } else {
                self.live[i] = self.firm[i];
            }
        }
        self.steps = steps;
        Ok(())
    }

    ghost rooted = { λ s. buffered_rooted s.live.now s.firm.now s.steps };
}

impl Probe for Buffered<'_> {
    fn words(&self) -> (&[u64], &[u64]) {
        let size = self.shared();
        (&self.live[..size], &self.firm[..size])
    }

    fn steps(&self) -> Option<u64> {
        Some(self.steps_left())
    }

    fn poke(&mut self, at: usize, word: u64) -> Result<(), Refusal>
        ensures answer { result ≡ poke_answer (buffered_words self.old.live.now self.old.firm.now self.old.steps) at }
        ensures after { buffered_words self.new.live.now self.new.firm.now self.new.steps ≡ poked (buffered_words self.old.live.now self.old.firm.now self.old.steps) at word }
        ensures lent { (self.new.live.ghost_name ≡ self.old.live.ghost_name) × (self.new.firm.ghost_name ≡ self.old.firm.ghost_name) }
        ensures rest { unshared self.new.live.now self.new.firm.now ≡ unshared self.old.live.now self.old.firm.now }
    {
        if at >= self.shared() {
            return Err(Refusal::Outside);
        }
        self.live[at] = word;
        self.firm[at] = word;
        Ok(())
    }

    fn supply(&mut self, steps: u64)
        ensures after { buffered_words self.new.live.now self.new.firm.now self.new.steps ≡ supplied (buffered_words self.old.live.now self.old.firm.now self.old.steps) steps }
        ensures lent { (self.new.live.ghost_name ≡ self.old.live.ghost_name) × (self.new.firm.ghost_name ≡ self.old.firm.ghost_name) }
        ensures rest { unshared self.new.live.now self.new.firm.now ≡ unshared self.old.live.now self.old.firm.now }
    {
        let Buffered { steps: left, .. } = self;
        *left = steps;
    }
}
