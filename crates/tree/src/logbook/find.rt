// Find.
ghost use Rattle.std.specs.Prelude.{◌≡◌};
ghost use Rattle.keys.specs.InWords.{in_words};
ghost use Rattle.tree.specs.Sound.{Sound};
ghost use Rattle.tree.specs.Telling.{find_answer};

use super::Logbook;
use keys::Key;
use leaves::leaf::ask::find_in;
use memory::Memory;
use refusal::Refusal;

impl<K: Key, M: Memory> Logbook<K, M> {
    // The reading of a key; refused where it is not in the book.
    pub fn find(&mut self, key: &K) -> Result<u64, Refusal>
        ensures same { M.Memory.meaning self.new.memory ≡ M.Memory.meaning self.old.memory }
        ensures state { self.new.state ≡ self.old.state }
        ensures taken { self.new.taken ≡ self.old.taken }
        ensures answer { Sound (in_words K.Key.kind) (M.Memory.meaning self.old.memory).live self.old.state → result ≡ find_answer (in_words K.Key.kind) (M.Memory.meaning self.old.memory).live self.old.state (K.Key.kind.form key.now) }
    {
        let words = key.pack();
        let leaf = self.leaf_for(key)?;
        find_in::<K, M>(&mut self.memory, leaf, words)?.ok_or(Refusal::Absent)
    }
}
