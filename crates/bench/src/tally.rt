// A memory that counts how often each of its words is read.
ghost use Rattle.std.specs.Prelude.{◌≡◌};
ghost use Rattle.memory.specs.Meaning.{after_flush, after_store, flush_answer, read_answer, store_answer};

use memory::Memory;
use refusal::Refusal;

// A logbook of 64 leaves.
pub const WORDS: usize = 4616;

#[derive(Drop)]
pub struct Tally<M> {
    memory: M,
    reads: [u64; WORDS],
}

impl<M: Memory> Tally<M> {
    pub fn new(memory: M) -> Self
        ensures { result.memory ≡ memory }
    {
        Tally {
            memory,
            reads: [0; WORDS],
        }
    }

    // The memory itself, to be looked at without a count.
    pub fn memory(&self) -> &M
        ensures { result.now ≡ self.now.memory }
    {
        &self.memory
    }

    // How often each word has been read.
    pub fn reads(&self) -> &[u64] {
        &self.reads
    }

    pub fn restart(&mut self)
        ensures { self.new.memory ≡ self.old.memory }
    {
        self.reads = [0; WORDS];
    }
}

impl<M: Memory> Memory for Tally<M> {
    ghost meaning = { λ s. M.Memory.meaning s.memory };

    ghost laws = { λ s. M.Memory.laws s.memory };

    fn size(&self) -> usize {
        self.memory.size()
    }

    fn read(&mut self, at: usize) -> Result<u64, Refusal>
        ensures answer { result ≡ read_answer (M.Memory.meaning self.old.memory) at }
        ensures after { M.Memory.meaning self.new.memory ≡ M.Memory.meaning self.old.memory }
    {
        if let Some(count) = self.reads.get_mut(at) {
            *count = count.saturating_add(1);
        }
        self.memory.read(at)
    }

    fn store(&mut self, at: usize, word: u64) -> Result<(), Refusal>
        ensures answer { result ≡ store_answer (M.Memory.meaning self.old.memory) at }
        ensures after { M.Memory.meaning self.new.memory ≡ after_store (M.Memory.meaning self.old.memory) at word }
    {
        self.memory.store(at, word)
    }

    fn flush(&mut self, line: usize) -> Result<(), Refusal>
        ensures answer { result ≡ flush_answer (M.Memory.meaning self.old.memory) line }
        ensures after { M.Memory.meaning self.new.memory ≡ after_flush (M.Memory.meaning self.old.memory) line }
    {
        self.memory.flush(line)
    }
}
