// Pairs.
ghost use Rattle.std.specs.Prelude.{◌≡◌};
ghost use Rattle.keys.specs.InWords.{in_words};
ghost use Rattle.tree.specs.Sound.{Sound};
ghost use Rattle.tree.specs.Telling.{pairs_answer};

use super::Logbook;
use keys::Key;
use leaves::leaf::ask::pairs_in;
use memory::Memory;
use refusal::Refusal;

impl<K: Key, M: Memory> Logbook<K, M> {
    // How many pairs the book has.
    pub fn pairs(&mut self) -> Result<usize, Refusal>
        ensures same { M.Memory.meaning self.new.memory ≡ M.Memory.meaning self.old.memory }
        ensures state { self.new.state ≡ self.old.state }
        ensures taken { self.new.taken ≡ self.old.taken }
        ensures answer { Sound (in_words K.Key.kind) (M.Memory.meaning self.old.memory).live self.old.state → result ≡ pairs_answer (in_words K.Key.kind) (M.Memory.meaning self.old.memory).live self.old.state }
    {
        let mut place = Some(self.first()?);
        let mut all = 0_usize;
        while let Some(at) = place {
            let (leaf, after) = self.step(at)?;
            all = all.saturating_add(pairs_in::<K, M>(&mut self.memory, leaf)?);
            place = after;
        }
        Ok(all)
    }
}
