//! Line writes: stores into one line of a memory, and then the flush of that line. What they come to on any memory, and what a cut can leave of them.
#![tactic(auto)]

ghost use Rattle.std.specs.Prelude.{◌≡◌, ◌+◌, ◌^◌, ◌<◌, ◌≤◌, [], ◌∷◌, length};
ghost use Rattle.writes.specs.Writes.{onward, outcome, perform, row};
ghost use Rattle.writes.specs.Laws.{Commit, FirstSteps, InTurn, Kept, More, Observed, PowerAlone, Short, Whole};

use memory::Memory;
use refusal::Refusal;

// Stores consecutive words and flushes the line of the first, until the first refusal. Granted steps are counted.
pub fn write_row<M: Memory>(
    memory: &mut M,
    steps: &mut usize,
    first: usize,
    words: &[u64],
) -> Result<(), Refusal>
    ensures done { first + length words.now < 2 ^ 64 → steps.old + length words.now + 1 < 2 ^ 64 → outcome (M.Memory.meaning memory.new) steps.new result ≡ onward steps.old (perform (M.Memory.meaning memory.old) (row first words.now ∷ [])) }
    ensures few { steps.new ≤ steps.old + length words.now + 1 }
{
    for (i, word) in words.iter().enumerate() {
        memory.store(first.saturating_add(i), *word)?;
        *steps = steps.saturating_add(1);
    }
    memory.flush(first / 8)?;
    *steps = steps.saturating_add(1);
    Ok(())
}

// What holds of line writes on any memory.
pub fn writes_stand()
    ensures whole { Whole }
    ensures short { Short }
    ensures power_alone { PowerAlone }
    ensures commit { Commit }
    ensures kept { Kept }
    ensures more { More }
    ensures first_steps { FirstSteps }
    ensures in_turn { InTurn }
{}

// The same of whatever is seen in the words, as a value of any type.
pub fn observed_stands<X>()
    ensures { Observed X }
{}
