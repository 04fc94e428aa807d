// Next.
ghost use Rattle.std.specs.Prelude.{◌≡◌};
ghost use Rattle.keys.specs.InWords.{in_words};
ghost use Rattle.tree.specs.Sound.{Sound};
ghost use Rattle.tree.specs.Telling.{next_answer};

use super::Logbook;
use keys::Key;
use leaves::leaf::Pair;
use leaves::leaf::ask::next_in;
use memory::Memory;
use refusal::Refusal;

impl<K: Key, M: Memory> Logbook<K, M> {
    // The pair of the smallest key after the given one; refused where there is none.
    pub fn next(&mut self, key: &K) -> Result<Pair, Refusal>
        ensures same { M.Memory.meaning self.new.memory ≡ M.Memory.meaning self.old.memory }
        ensures state { self.new.state ≡ self.old.state }
        ensures taken { self.new.taken ≡ self.old.taken }
        ensures answer { Sound (in_words K.Key.kind) (M.Memory.meaning self.old.memory).live self.old.state → result ≡ next_answer (in_words K.Key.kind) (M.Memory.meaning self.old.memory).live self.old.state (K.Key.kind.form key.now) }
    {
        let words = key.pack();
        let mut place = Some(self.place_for(key)?);
        while let Some(at) = place {
            let (leaf, after) = self.step(at)?;
            if let Some(pair) = next_in::<K, M>(&mut self.memory, leaf, words)? {
                return Ok(pair);
            }
            place = after;
        }
        Err(Refusal::Absent)
    }
}
