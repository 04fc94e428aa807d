ghost use Rattle.std.specs.Prelude.{◌≡◌};
ghost use Rattle.own_memory.specs.Shadowed.{blank_words, shadowed_lawful, shadowed_rooted, shadowed_words};

use crate::copies::Copies;
use memory::{Memory, Settle};
use refusal::Refusal;

// A memory that owns its words and keeps each in two copies. A store writes the copy that is not firm; a flush and a cut copy nothing:
// they only say which copy counts. Its steps are set by its maker, and by each cut.
#[derive(Clone, Copy)]
pub struct Shadowed<const N: usize> {
    words: [Copies; N],
    steps: u64,
}

impl<const N: usize> Shadowed<N> {
    // Words that are all 0 and settled, with so many steps.
    pub fn new(steps: u64) -> Self
        ensures { shadowed_words result.words result.steps ≡ blank_words N steps }
    {
        Shadowed {
            words: [Copies::new(0); N],
            steps,
        }
    }
}

impl<const N: usize> Memory for Shadowed<N> {
    ghost meaning = { λ s. shadowed_words s.words s.steps };

    ghost laws = { λ s. shadowed_lawful s.words s.steps };

    fn size(&self) -> usize {
        self.words.len()
    }

    fn read(&mut self, at: usize) -> Result<u64, Refusal> {
        match self.words.get(at) {
            Some(word) => Ok(word.live()),
            None => Err(Refusal::Outside),
        }
    }

    fn store(&mut self, at: usize, word: u64) -> Result<(), Refusal> {
        if at >= N {
            return Err(Refusal::Outside);
        }
        if self.steps == 0 {
            return Err(Refusal::NoPower);
        }
        let old = self.words[at];
        if old.live() != old.firm() {
            return Err(Refusal::Unsettled);
        }
        self.words[at] = old.stored(word);
        self.steps -= 1;
        Ok(())
    }

    fn flush(&mut self, line: usize) -> Result<(), Refusal> {
        if line >= N.div_ceil(8) {
            return Err(Refusal::Outside);
        }
        if self.steps == 0 {
            return Err(Refusal::NoPower);
        }
        let start = 8 * line;
        for i in start..N.min(start + 8) {
            self.words[i] = self.words[i].flushed();
        }
        self.steps -= 1;
        Ok(())
    }
}

impl<const N: usize> Settle for Shadowed<N> {
    ghost bottom = { λ s. shadowed_words s.words s.steps };

    fn choices(&self) -> usize {
        self.size()
    }

    fn settle(&mut self, choice: &[u64], steps: u64) -> Result<(), Refusal> {
        if choice.len() < N {
            return Err(Refusal::WrongLength);
        }
        for i in 0..N {
            self.words[i] = self.words[i].settled(choice[i] % 2 == 1);
        }
        self.steps = steps;
        Ok(())
    }

    ghost rooted = { λ s. shadowed_rooted s.words s.steps };
}
