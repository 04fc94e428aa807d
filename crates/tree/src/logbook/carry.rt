// How a call's line writes end: granted whole, or broken off.
ghost use Rattle.std.specs.Prelude.{◌≡◌, ◌+◌, ◌*◌, ◌≤◌, length};
ghost use Rattle.writes.specs.Writes.{outcome, perform};
ghost use Rattle.appends.specs.Append.{append_lines};
ghost use Rattle.tree.specs.Halting.{ended, halted, state_after, steps_of};

use super::{Logbook, State};
use appends::append;
use keys::Key;
use memory::Memory;
use refusal::Refusal;

// A call that was not granted: its refusal, and the steps that the memory had granted it before.
#[derive(Clone, Copy, PartialEq, Eq, Debug)]
pub struct Halt {
    pub refusal: Refusal,
    pub steps: usize,
}

// Refused before the first step.
impl From<Refusal> for Halt {
    ghost from_gives = { λ refusal halt. halt ≡ halted refusal 0 };

    fn from(refusal: Refusal) -> Self {
        Halt { refusal, steps: 0 }
    }
}

impl<K: Key, M: Memory> Logbook<K, M> {
    // Ends a call that wrote: a refusal of the memory makes the logbook dark.
    pub(crate) fn close(
        &mut self,
        written: Result<(), Refusal>,
        steps: usize,
    ) -> Result<usize, Halt>
        ensures steps { steps_of result ≡ steps }
        ensures ended { ended result ≡ written }
        ensures memory { self.new.memory ≡ self.old.memory }
        ensures state { self.new.state ≡ state_after self.old.state written }
        ensures taken { self.new.taken ≡ self.old.taken }
    {
        match written {
            Ok(()) => Ok(steps),
            Err(refusal) => {
                self.state = State::Dark;
                Err(Halt { refusal, steps })
            }
        }
    }

    // Appends elements of a key to a leaf that counts so many.
    pub(crate) fn append(
        &mut self,
        leaf: usize,
        count: usize,
        key: (u64, u64),
        elements: &[(u64, u64)],
    ) -> Result<usize, Halt>
        ensures done { 1 ≤ leaf → leaf ≤ 64 → count + length elements.now ≤ 16 → outcome (M.Memory.meaning self.new.memory) (steps_of result) (ended result) ≡ perform (M.Memory.meaning self.old.memory) (append_lines leaf count key elements.now) }
        ensures few { steps_of result ≤ 5 * length elements.now + 2 }
        ensures state { self.new.state ≡ state_after self.old.state (ended result) }
        ensures taken { self.new.taken ≡ self.old.taken }
    {
        let mut steps = 0;
        let written = append(&mut self.memory, &mut steps, leaf, count, key, elements);
        self.close(written, steps)
    }
}
