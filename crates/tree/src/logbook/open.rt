// Open.
ghost use Rattle.std.specs.Prelude.{◌≡◌, None, Ok, MatchResult};
ghost use Rattle.keys.specs.InWords.{in_words};
ghost use Rattle.leaves.specs.Opening.{open_answer};
ghost use Rattle.tree.specs.Sound.{Sound};
ghost use Rattle.tree.specs.Shape.{built_shape, open_shape, open_told, shape_of, top_at, tops};

use super::{Logbook, State};
use fixed_vec::FixedVec;
use index::node::Entry;
use index::table::Index;
use keys::Key;
use leaves::leaf::ask::greatest_in;
use leaves::open::Fault;
use leaves::open::walk::open;
use memory::Memory;
use refusal::Refusal;

// The greatest counted key of a leaf, (0, 0) where there is none.
fn top<K: Key, M: Memory>(memory: &mut M, leaf: usize) -> (u64, u64)
    ensures same { M.Memory.meaning memory.new ≡ M.Memory.meaning memory.old }
    ensures value { result ≡ top_at (in_words K.Key.kind) (M.Memory.meaning memory.old).live leaf }
{
    let greatest = greatest_in::<K, M>(memory, leaf);
    greatest.ok().flatten().unwrap_or((0, 0))
}

// The state of a logbook that has found these leaves in its memory.
fn opened<K: Key, M: Memory>(memory: &mut M, leaves: &[usize]) -> State
    requires { open_answer (in_words K.Key.kind) (M.Memory.meaning memory.old).live ≡ Ok leaves.now }
    ensures same { M.Memory.meaning memory.new ≡ M.Memory.meaning memory.old }
    ensures shape { shape_of result ≡ built_shape leaves.now (tops (in_words K.Key.kind) (M.Memory.meaning memory.old).live leaves.now) }
{
    let mut entries = FixedVec::<Entry, 64>::new(Entry::default());
    for leaf in leaves {
        let bound = top::<K, M>(memory, *leaf);
        entries.push(Entry { to: *leaf, bound }).unwrap();
    }
    Index::build(entries.as_slice()).map_or(State::Blank, State::Open)
}

impl<K: Key, M: Memory> Logbook<K, M> {
    // Takes up the book that the memory's words hold, by reads alone; refused with the first fault, and then blank.
    pub fn open(&mut self) -> Result<(), Fault>
        ensures same { M.Memory.meaning self.new.memory ≡ M.Memory.meaning self.old.memory }
        ensures answer { result ≡ open_told self.old.state (open_answer (in_words K.Key.kind) (M.Memory.meaning self.old.memory).live) }
        ensures state { shape_of self.new.state ≡ open_shape (in_words K.Key.kind) (M.Memory.meaning self.old.memory).live self.old.state }
        ensures taken { MatchResult result (λ _. self.new.taken ≡ None) (λ _. self.new.taken ≡ self.old.taken) }
        ensures sound { Sound (in_words K.Key.kind) (M.Memory.meaning self.new.memory).live self.new.state }
    {
        if let State::Dark = self.state {
            return Err(Refusal::NoPower.into());
        }
        match open::<K, M>(&mut self.memory) {
            Ok(chain) => {
                self.state = opened::<K, M>(&mut self.memory, chain.as_slice());
                self.taken = None;
                Ok(())
            }
            Err(fault) => {
                self.state = State::Blank;
                Err(fault)
            }
        }
    }
}
