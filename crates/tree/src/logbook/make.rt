// Making a logbook, and giving its memory back.
ghost use Rattle.std.specs.Prelude.{◌≡◌, None};
ghost use Rattle.std.specs.Borrow.{Lends, sem};
ghost use Rattle.tree.specs.contracts.logbook.Logbook.{the_row};
ghost use Rattle.tree.specs.declared.logbook.State.TheVariants.{Blank};

use super::{Logbook, State};
use keys::Key;
use memory::Memory;
use std::marker::PhantomData;

impl<K: Key, M: Memory> Logbook<K, M> {
    // A blank logbook.
    pub fn new(memory: M) -> Self
        ensures memory { result.memory ≡ memory }
        ensures state { result.state ≡ Blank }
        ensures taken { result.taken ≡ None }
    {
        Logbook {
            memory,
            state: State::Blank,
            taken: None,
            kind: PhantomData,
        }
    }

    // Blank, open or dark.
    pub fn state(&self) -> &State
        ensures { result.now ≡ self.now.state }
    {
        &self.state
    }

    // The memory below, to be looked at.
    pub fn memory(&self) -> &M
        ensures { result.now ≡ self.now.memory }
    {
        &self.memory
    }

    // The memory below, to be changed past the logbook: an open one speaks of the new words only once it is opened anew.
    pub fn memory_mut(&mut self) -> &mut M
        ensures value { result.now ≡ self.old.memory }
        ensures* writes_back { sem 𝓛 (Lends (the_row K.row M.row) M.row self.entry result (λ w. record self.old { memory = w })) }
    {
        &mut self.memory
    }

    // Gives the memory back, in every state.
    pub fn release(self) -> M
        ensures { result ≡ self.memory }
    {
        let Logbook {
            memory,
            state: _,
            taken: _,
            kind: _,
        } = self;
        memory
    }
}
