//! The memory under the logbook: what it means, and the calls that show it. Makes and layers implement this; all above sees nothing else.
#![tactic(auto)]

ghost use Rattle.std.specs.Prelude.{◌≡◌, ℕ, Ok};
ghost use Rattle.memory.specs.Meaning.{CutOf, Freely, Lawful, Rooted, Settled, Words, after_flush, after_settle, after_store, flush_answer, read_answer, settle_answer, size_of, store_answer};

use refusal::Refusal;

// A memory of 64-bit words. Each call's answer, and the meaning after it, is an equation on the meaning before it.
pub trait Memory {
    ghost meaning: { Self → Words };

    ghost laws: { (m : Self) → Lawful (meaning m) };

    // The number of words.
    fn size(&self) -> usize
        ensures { result ≡ size_of (meaning self.now) };

    // The live word; refused outside.
    fn read(&mut self, at: usize) -> Result<u64, Refusal>
        ensures answer { result ≡ read_answer (meaning self.old) at }
        ensures after { meaning self.new ≡ meaning self.old };

    // Makes one live word new, by one step; refused outside, with no steps left, and for an unsettled word.
    fn store(&mut self, at: usize, word: u64) -> Result<(), Refusal>
        ensures answer { result ≡ store_answer (meaning self.old) at }
        ensures after { meaning self.new ≡ after_store (meaning self.old) at word };

    // Makes the words of one line firm, by one step; refused outside, and with no steps left.
    fn flush(&mut self, line: usize) -> Result<(), Refusal>
        ensures answer { result ≡ flush_answer (meaning self.old) line }
        ensures after { meaning self.new ≡ after_flush (meaning self.old) line };
}

// A memory that can be cut off from power: each word then stands as its live or its firm word. A choice run says which: it
// counts the words of the make at the bottom, below all layers; an odd choice keeps live, an even one firm.
pub trait Settle: Memory {
    // What the make at the bottom means, with the words that layers hide.
    ghost bottom: { Self → Words };

    // How long a choice run must be.
    fn choices(&self) -> usize
        ensures { result ≡ (Self.Memory.meaning self.now).choosing.many };

    // Settles each word by its choice, with new steps; refused where the choice run is shorter than that.
    fn settle(&mut self, choice: &[u64], steps: u64) -> Result<(), Refusal>
        ensures answer { result ≡ settle_answer (Self.Memory.meaning self.old) choice.now }
        ensures after { Self.Memory.meaning self.new ≡ after_settle (Self.Memory.meaning self.old) choice.now steps }
        ensures whole { bottom self.new ≡ after_settle (bottom self.old) choice.now steps }
        ensures free { Freely (Self.Memory.meaning self.old) };

    ghost rooted: { (m : Self) → Rooted (Self.Memory.meaning m) (bottom m) };
}

// Cuts the power: where the choice run is long enough, what is left is a cut of what there was, and settled. Every mix can be chosen.
pub fn cut<M: Settle>(memory: &mut M, choice: &[u64], steps: u64) -> Result<(), Refusal>
    ensures answer { result ≡ settle_answer (M.Memory.meaning memory.old) choice.now }
    ensures after { M.Memory.meaning memory.new ≡ after_settle (M.Memory.meaning memory.old) choice.now steps }
    ensures whole { M.Settle.bottom memory.new ≡ after_settle (M.Settle.bottom memory.old) choice.now steps }
    ensures free { Freely (M.Memory.meaning memory.old) }
    ensures mixed { result ≡ Ok tt → CutOf (M.Memory.meaning memory.old) (M.Memory.meaning memory.new) }
    ensures settled { result ≡ Ok tt → Settled (M.Memory.meaning memory.new) }
{
    memory.settle(choice, steps)
}
