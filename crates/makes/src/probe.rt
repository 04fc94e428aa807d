ghost use Rattle.std.specs.Prelude.{◌≡◌};
ghost use Rattle.makes.specs.Probes.{poke_answer, poked, steps_of, supplied};

use memory::Memory;
use refusal::Refusal;

// A make of memory whose words can be seen, and damaged from outside, as a faulty device does, and whose supply can be set.
pub trait Probe: Memory {
    // The live words and the firm ones.
    fn words(&self) -> (&[u64], &[u64])
        ensures live { result.0.now ≡ (Self.Memory.meaning self.now).live }
        ensures firm { result.1.now ≡ (Self.Memory.meaning self.now).firm };

    // The steps left, if they end.
    fn steps(&self) -> Option<u64>
        ensures { result ≡ steps_of (Self.Memory.meaning self.now) };

    // Makes one word new, live and firm, without a step; refused outside.
    fn poke(&mut self, at: usize, word: u64) -> Result<(), Refusal>
        ensures answer { result ≡ poke_answer (Self.Memory.meaning self.old) at }
        ensures after { Self.Memory.meaning self.new ≡ poked (Self.Memory.meaning self.old) at word };

    // Sets the steps left, where they end.
    fn supply(&mut self, steps: u64)
        ensures after { Self.Memory.meaning self.new ≡ supplied (Self.Memory.meaning self.old) steps };
}
