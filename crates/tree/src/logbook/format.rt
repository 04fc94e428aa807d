// Format.
ghost use Rattle.std.specs.Prelude.{◌≡◌, ◌+◌, ◌^◌, ◌<◌, Ok, MatchResult};
ghost use Rattle.keys.specs.InWords.{in_words};
ghost use Rattle.writes.specs.Writes.{onward, outcome, perform};
ghost use Rattle.books.specs.Format.{format_writes};
ghost use Rattle.tree.specs.Formatting.{AfterCut, ended_shape, format_check, format_run, format_shape, taken_after};
ghost use Rattle.tree.specs.Shape.{shape_of};
ghost use Rattle.tree.specs.Sound.{Sound};

use super::{Logbook, State};
use index::node::Entry;
use index::table::Index;
use keys::Key;
use memory::Memory;
use refusal::Refusal;
use writes::write_row;

// Makes an empty book: no mark until all else is there.
fn write_book<M: Memory>(
    memory: &mut M,
    steps: &mut usize,
    code: u64,
    leaves: u64,
) -> Result<(), Refusal>
    ensures { steps.old + 12 < 2 ^ 64 → outcome (M.Memory.meaning memory.new) steps.new result ≡ onward steps.old (perform (M.Memory.meaning memory.old) (format_writes code leaves)) }
{
    write_row(memory, steps, 0, &[0])?;
    write_row(memory, steps, 8, &[0, 0, 0])?;
    write_row(memory, steps, 1, &[code, 1, leaves])?;
    write_row(memory, steps, 0, &[30_366])
}

// Makes a state that of a logbook with leaf 1 alone, and that empty. An index that is there is built anew where it stands.
fn make_alone(state: &mut State)
    ensures { shape_of state.new ≡ ended_shape (Ok tt) }
{
    let first = [Entry {
        to: 1,
        bound: (0, 0),
    }];
    if let State::Open(index) = state {
        index.reset(&first);
        return;
    }
    *state = Index::build(&first).map_or(State::Blank, State::Open);
}

impl<K: Key, M: Memory> Logbook<K, M> {
    // Whether a format with so many leaves can begin.
    fn can_format(&self, leaves: usize) -> Result<(), Refusal>
        ensures { result ≡ format_check self.now.state (M.Memory.meaning self.now.memory) leaves }
    {
        match (&self.state, leaves) {
            (State::Dark, _) => Err(Refusal::NoPower),
            (_, 2..=64) if self.memory.size() < 8 + 72 * leaves => Err(Refusal::WrongLength),
            (_, 2..=64) => Ok(()),
            _ => Err(Refusal::LeafCount),
        }
    }

    // Makes an empty book of so many leaves in the memory's words, whatever they held.
    pub fn format(&mut self, leaves: usize) -> Result<(), Refusal>
        ensures answer { result ≡ (format_run (in_words K.Key.kind) self.old.state (M.Memory.meaning self.old.memory) leaves).ended }
        ensures memory { M.Memory.meaning self.new.memory ≡ (format_run (in_words K.Key.kind) self.old.state (M.Memory.meaning self.old.memory) leaves).after }
        ensures state { shape_of self.new.state ≡ format_shape (in_words K.Key.kind) self.old.state (M.Memory.meaning self.old.memory) leaves }
        ensures taken { self.new.taken ≡ taken_after self.old.taken result }
        ensures sound { MatchResult result (λ _. Sound (in_words K.Key.kind) (M.Memory.meaning self.new.memory).live self.new.state) (λ _. Sound (in_words K.Key.kind) (M.Memory.meaning self.old.memory).live self.old.state → Sound (in_words K.Key.kind) (M.Memory.meaning self.new.memory).live self.new.state) }
        ensures cut { AfterCut (in_words K.Key.kind) (M.Memory.meaning self.old.memory) (M.Memory.meaning self.new.memory) }
    {
        self.can_format(leaves)?;
        let mut steps = 0;
        match write_book(&mut self.memory, &mut steps, K::code(), leaves as u64) {
            Ok(()) => {
                make_alone(&mut self.state);
                self.taken = None;
                Ok(())
            }
            Err(refusal) => {
                self.state = State::Dark;
                Err(refusal)
            }
        }
    }
}
