ghost use Rattle.std.specs.Prelude.{◌≡◌, ℕ};
ghost use Rattle.std.specs.Borrow.{Lends, sem};
ghost use Rattle.layers.specs.Layers.{Numbering, Sound, flush_below, layered, layered_lawful, layered_rooted, line_under, store_below, word_below};
ghost use Rattle.layers.specs.contracts.layer.Layer.{the_row};
ghost use Rattle.memory.specs.Meaning.{Freely, after_flush, after_settle, after_store, flush_answer, read_answer, settle_answer, size_of, store_answer};

use memory::{Memory, Settle};
use refusal::Refusal;

// How a layer numbers the words and lines of a memory below it of a given size.
pub trait Renumber: Drop {
    ghost numbering: { Self → Numbering };

    // How many words the layer has.
    fn words(&self, size: usize) -> usize
        ensures { result ≡ (numbering self.now).words size };

    // The word below that word `at` lies on, if there is one.
    fn word_below(&self, size: usize, at: usize) -> Option<usize>
        ensures { result ≡ word_below (numbering self.now) size at };

    // The line below that a line lies on, if there is one.
    fn line_below(&self, size: usize, line: usize) -> Option<usize>
        ensures { result ≡ line_under (numbering self.now) size line };

    ghost sound: { (n : Self) → Sound (numbering n) };
}

// A memory whose words lie in the memory below, numbered anew.
#[derive(Drop)]
pub struct Layer<N, M> {
    pub(crate) numbering: N,
    pub(crate) below: M,
}

impl<N: Renumber, M: Memory> Layer<N, M> {
    pub fn below(&self) -> &M
        ensures { result.now ≡ self.now.below }
    {
        &self.below
    }

    // The memory below, to be changed.
    pub fn below_mut(&mut self) -> &mut M
        ensures value { result.now ≡ self.old.below }
        ensures* writes_back { sem 𝓛 (Lends (the_row N.row M.row) M.row self.entry result (λ w. record self.old { below = w })) }
    {
        &mut self.below
    }

    // Gives the memory below back.
    pub fn release(self) -> M
        ensures { result ≡ self.below }
    {
        let Layer { below, .. } = self;
        below
    }

    // The word below that word `at` lies on, if there is one.
    pub fn word_below(&self, at: usize) -> Option<usize>
        ensures { result ≡ word_below (N.numbering self.now.numbering) (size_of (M.Memory.meaning self.now.below)) at }
    {
        self.numbering.word_below(self.below.size(), at)
    }

    // The line below that a line lies on, if there is one.
    pub fn line_below(&self, line: usize) -> Option<usize>
        ensures { result ≡ line_under (N.numbering self.now.numbering) (size_of (M.Memory.meaning self.now.below)) line }
    {
        self.numbering.line_below(self.below.size(), line)
    }
}

impl<N: Renumber, M: Memory> Memory for Layer<N, M> {
    ghost meaning = { λ s. layered (N.numbering s.numbering) (M.Memory.meaning s.below) };

    ghost laws = { λ s. layered_lawful (N.numbering s.numbering) (M.Memory.laws s.below) };

    #[tactic(auto, using(crate::proofs::Views::size_layered))]
    fn size(&self) -> usize {
        self.numbering.words(self.below.size())
    }

    fn read(&mut self, at: usize) -> Result<u64, Refusal>
        ensures answer { result ≡ read_answer (layered (N.numbering self.old.numbering) (M.Memory.meaning self.old.below)) at }
        ensures after { layered (N.numbering self.new.numbering) (M.Memory.meaning self.new.below) ≡ layered (N.numbering self.old.numbering) (M.Memory.meaning self.old.below) }
        ensures kept { self.new.numbering ≡ self.old.numbering }
        ensures below { M.Memory.meaning self.new.below ≡ M.Memory.meaning self.old.below }
    {
        let at = self.word_below(at).ok_or(Refusal::Outside)?;
        self.below.read(at)
    }

    fn store(&mut self, at: usize, word: u64) -> Result<(), Refusal>
        ensures answer { result ≡ store_answer (layered (N.numbering self.old.numbering) (M.Memory.meaning self.old.below)) at }
        ensures after { layered (N.numbering self.new.numbering) (M.Memory.meaning self.new.below) ≡ after_store (layered (N.numbering self.old.numbering) (M.Memory.meaning self.old.below)) at word }
        ensures kept { self.new.numbering ≡ self.old.numbering }
        ensures below { M.Memory.meaning self.new.below ≡ store_below (N.numbering self.old.numbering) (M.Memory.meaning self.old.below) at word }
    {
        let at = self.word_below(at).ok_or(Refusal::Outside)?;
        self.below.store(at, word)
    }

    fn flush(&mut self, line: usize) -> Result<(), Refusal>
        ensures answer { result ≡ flush_answer (layered (N.numbering self.old.numbering) (M.Memory.meaning self.old.below)) line }
        ensures after { layered (N.numbering self.new.numbering) (M.Memory.meaning self.new.below) ≡ after_flush (layered (N.numbering self.old.numbering) (M.Memory.meaning self.old.below)) line }
        ensures kept { self.new.numbering ≡ self.old.numbering }
        ensures below { M.Memory.meaning self.new.below ≡ flush_below (N.numbering self.old.numbering) (M.Memory.meaning self.old.below) line }
    {
        let line = self.line_below(line).ok_or(Refusal::Outside)?;
        self.below.flush(line)
    }
}

impl<N: Renumber, M: Settle> Settle for Layer<N, M> {
    ghost bottom = { λ s. M.Settle.bottom s.below };

    fn choices(&self) -> usize {
        self.below.choices()
    }

    fn settle(&mut self, choice: &[u64], steps: u64) -> Result<(), Refusal>
        ensures answer { result ≡ settle_answer (layered (N.numbering self.old.numbering) (M.Memory.meaning self.old.below)) choice.now }
        ensures after { layered (N.numbering self.new.numbering) (M.Memory.meaning self.new.below) ≡ after_settle (layered (N.numbering self.old.numbering) (M.Memory.meaning self.old.below)) choice.now steps }
        ensures whole { M.Settle.bottom self.new.below ≡ after_settle (M.Settle.bottom self.old.below) choice.now steps }
        ensures free { Freely (layered (N.numbering self.old.numbering) (M.Memory.meaning self.old.below)) }
        ensures kept { self.new.numbering ≡ self.old.numbering }
        ensures below { M.Memory.meaning self.new.below ≡ after_settle (M.Memory.meaning self.old.below) choice.now steps }
    {
        self.below.settle(choice, steps)
    }

    ghost rooted = { λ s. layered_rooted (N.numbering s.numbering) (M.Settle.rooted s.below) };
}
