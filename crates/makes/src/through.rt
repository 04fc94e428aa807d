ghost use Rattle.std.specs.Prelude.{◌≡◌, ℕ};
ghost use Rattle.memory.specs.Meaning.{Freely, after_flush, after_settle, after_store, flush_answer, read_answer, settle_answer, store_answer};
ghost use Rattle.makes.specs.Makes.{through_lawful, through_rooted, through_words};
ghost use Rattle.makes.specs.Probes.{poke_answer, poked, supplied};

use crate::probe::Probe;
use memory::{Memory, Settle};
use refusal::Refusal;

// A memory over one lent run of words, which may be a part of a longer one: every store writes through, and steps are endless.
#[derive(Drop)]
pub struct Through<'a> {
    run: &'a mut [u64],
}

impl<'a> Through<'a> {
    pub fn new(run: &'a mut [u64]) -> Self
        ensures run { result.run.now ≡ run.old }
        ensures lent { result.run.ghost_name ≡ run.entry.ghost_name }
    {
        Through { run }
    }

    // Gives the run back.
    pub fn release(self) -> &'a mut [u64]
        ensures run { result.now ≡ self.entry.run.now }
        ensures lent { result.ghost_name ≡ self.entry.run.ghost_name }
    {
        let Through { run } = self;
        run
    }
}

impl Memory for Through<'_> {
    ghost meaning = { λ s. through_words s.run.now };

    ghost laws = { λ s. through_lawful s.run.now };

    fn size(&self) -> usize {
        self.run.len()
    }

    fn read(&mut self, at: usize) -> Result<u64, Refusal>
        ensures answer { result ≡ read_answer (through_words self.old.run.now) at }
        ensures after { through_words self.new.run.now ≡ through_words self.old.run.now }
        ensures lent { self.new.run.ghost_name ≡ self.old.run.ghost_name }
    {
        if at >= self.run.len() {
            return Err(Refusal::Outside);
        }
        Ok(self.run[at])
    }

    fn store(&mut self, at: usize, word: u64) -> Result<(), Refusal>
        ensures answer { result ≡ store_answer (through_words self.old.run.now) at }
        ensures after { through_words self.new.run.now ≡ after_store (through_words self.old.run.now) at word }
        ensures lent { self.new.run.ghost_name ≡ self.old.run.ghost_name }
    {
        if at >= self.run.len() {
            return Err(Refusal::Outside);
        }
        self.run[at] = word;
        Ok(())
    }

    fn flush(&mut self, line: usize) -> Result<(), Refusal>
        ensures answer { result ≡ flush_answer (through_words self.old.run.now) line }
        ensures after { through_words self.new.run.now ≡ after_flush (through_words self.old.run.now) line }
        ensures lent { self.new.run.ghost_name ≡ self.old.run.ghost_name }
    {
        if line >= self.run.len().div_ceil(8) {
            return Err(Refusal::Outside);
        }
        Ok(())
    }
}

impl Settle for Through<'_> {
    ghost bottom = { λ s. through_words s.run.now };

    fn choices(&self) -> usize {
        0
    }

    // Every word is firm already: there is nothing to choose, and steps stay endless.
    fn settle(&mut self, choice: &[u64], _steps: u64) -> Result<(), Refusal>
        ensures answer { result ≡ settle_answer (through_words self.old.run.now) choice.now }
        ensures after { through_words self.new.run.now ≡ after_settle (through_words self.old.run.now) choice.now _steps }
        ensures whole { through_words self.new.run.now ≡ after_settle (through_words self.old.run.now) choice.now _steps }
        ensures free { Freely (through_words self.old.run.now) }
        ensures lent { self.new.run.ghost_name ≡ self.old.run.ghost_name }
    {
        if choice.len() < self.choices() {
            return Err(Refusal::WrongLength);
        }
        Ok(())
    }

    ghost rooted = { λ s. through_rooted s.run.now };
}

impl Probe for Through<'_> {
    fn words(&self) -> (&[u64], &[u64]) {
        (self.run, self.run)
    }

    fn steps(&self) -> Option<u64> {
        None
    }

    fn poke(&mut self, at: usize, word: u64) -> Result<(), Refusal>
        ensures answer { result ≡ poke_answer (through_words self.old.run.now) at }
        ensures after { through_words self.new.run.now ≡ poked (through_words self.old.run.now) at word }
        ensures lent { self.new.run.ghost_name ≡ self.old.run.ghost_name }
    {
        self.store(at, word)
    }

    // They stay endless.
    fn supply(&mut self, _steps: u64)
        ensures after { through_words self.new.run.now ≡ supplied (through_words self.old.run.now) _steps }
        ensures lent { self.new.run.ghost_name ≡ self.old.run.ghost_name }
    {}
}
