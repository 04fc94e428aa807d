// A cut: the supply is lost, and comes back.
ghost use Rattle.std.specs.Prelude.{◌≡◌, MatchResult};
ghost use Rattle.keys.specs.InWords.{in_words};
ghost use Rattle.memory.specs.Meaning.{Freely, after_settle, settle_answer};
ghost use Rattle.tree.specs.Cutting.{cut_answer, cut_shape, cut_taken};
ghost use Rattle.tree.specs.Shape.{shape_of};
ghost use Rattle.tree.specs.Sound.{Sound};

use super::{Logbook, State};
use keys::Key;
use leaves::open::Fault;
use memory::{Settle, cut};
use refusal::Refusal;

impl<K: Key, M: Settle> Logbook<K, M> {
    // Settles the memory by a choice for each word, with new steps, and is then as a new logbook that is opened on it: what opening
    // answers. Refused where the choice run is too short; the cut has not happened then.
    pub fn cut(&mut self, choice: &[u64], steps: u64) -> Result<Result<(), Fault>, Refusal>
        ensures answer { result ≡ cut_answer (in_words K.Key.kind) (settle_answer (M.Memory.meaning self.old.memory) choice.now) (after_settle (M.Memory.meaning self.old.memory) choice.now steps).live }
        ensures memory { M.Memory.meaning self.new.memory ≡ after_settle (M.Memory.meaning self.old.memory) choice.now steps }
        ensures free { Freely (M.Memory.meaning self.old.memory) }
        ensures state { shape_of self.new.state ≡ cut_shape (in_words K.Key.kind) (settle_answer (M.Memory.meaning self.old.memory) choice.now) (after_settle (M.Memory.meaning self.old.memory) choice.now steps).live (shape_of self.old.state) }
        ensures taken { self.new.taken ≡ cut_taken (settle_answer (M.Memory.meaning self.old.memory) choice.now) self.old.taken }
        ensures sound { MatchResult result (λ _. Sound (in_words K.Key.kind) (M.Memory.meaning self.new.memory).live self.new.state) (λ _. Sound (in_words K.Key.kind) (M.Memory.meaning self.old.memory).live self.old.state → Sound (in_words K.Key.kind) (M.Memory.meaning self.new.memory).live self.new.state) }
    {
        cut(&mut self.memory, choice, steps)?;
        self.state = State::Blank;
        self.taken = None;
        Ok(self.open())
    }
}
