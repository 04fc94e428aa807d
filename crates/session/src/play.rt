// A list of calls and cuts, played on one logbook.
ghost use Rattle.std.specs.Prelude.{◌≡◌, ◌⊎◌, min, drop, length, take, Ok};
ghost use Rattle.session.specs.Grouping.{Indexed};
ghost use Rattle.session.specs.Hearing.{NodeHeard, heard_cut, heard_found, heard_next, heard_number, heard_removed, heard_steps};
ghost use Rattle.session.specs.Sessions.{Carried, CarriedAll, Same, Session};
ghost use Rattle.keys.specs.InWords.{in_words};
ghost use Rattle.tree.specs.Formatting.{format_run};
ghost use Rattle.tree.specs.Sound.{Sound};
ghost use Rattle.tree.specs.declared.logbook.State.TheVariants.{Blank};

use crate::act::{Act, Told};
use index::record::NodeRecord;
use keys::Key;
use leaves::leaf::Pair;
use leaves::open::Fault;
use memory::{Memory, Settle};
use refusal::Refusal;
use tree::logbook::Logbook;
use tree::logbook::carry::Halt;
use tree::logbook::turn::Removed;

fn steps(answer: Result<usize, Halt>) -> Told
    ensures { result ≡ heard_steps answer }
{
    match answer {
        Ok(steps) => Told::Steps { steps },
        Err(Halt { refusal, steps }) => Told::Halted { refusal, steps },
    }
}

fn removed(answer: Result<Removed, Halt>) -> Told
    ensures { result ≡ heard_removed answer }
{
    match answer {
        Ok(Removed { reading, steps }) => Told::Removed { reading, steps },
        Err(Halt { refusal, steps }) => Told::Halted { refusal, steps },
    }
}

fn found(answer: Result<u64, Refusal>) -> Told
    ensures { result ≡ heard_found answer }
{
    match answer {
        Ok(reading) => Told::Reading { reading },
        Err(refusal) => Told::Refused { refusal },
    }
}

fn next(answer: Result<Pair, Refusal>) -> Told
    ensures { result ≡ heard_next answer }
{
    match answer {
        Ok(pair) => Told::Next { pair },
        Err(refusal) => Told::Refused { refusal },
    }
}

fn number(answer: Result<usize, Refusal>) -> Told
    ensures { result ≡ heard_number answer }
{
    match answer {
        Ok(number) => Told::Number { number },
        Err(refusal) => Told::Refused { refusal },
    }
}

fn node<K: Key, M: Memory>(logbook: &Logbook<K, M>, number: usize) -> Told
    ensures { NodeHeard logbook.now.state number result }
{
    let mut record = NodeRecord::new();
    match logbook.node(number, &mut record) {
        Ok(()) => Told::Node { record },
        Err(refusal) => Told::Refused { refusal },
    }
}

fn opened(answer: Result<Result<(), Fault>, Refusal>) -> Told
    ensures { result ≡ heard_cut answer }
{
    match answer {
        Ok(Ok(())) => Told::Opened,
        Ok(Err(fault)) => Told::NotOpened { fault },
        Err(refusal) => Told::Refused { refusal },
    }
}

// The choices from a word on.
fn choices_from(choices: &[u64], from: usize) -> &[u64]
    ensures { result.now ≡ drop from choices.now }
{
    choices.get(from..).unwrap_or(&[])
}

// One act.
fn carry<K: Key, M: Settle>(logbook: &mut Logbook<K, M>, act: &Act<K>, choices: &[u64]) -> Told
    ensures { (s : Indexed) → Same (M.Memory.meaning logbook.old.memory) logbook.old.state logbook.old.taken s → Sound (in_words K.Key.kind) (M.Memory.meaning logbook.old.memory).live logbook.old.state → Carried K.Key.kind choices.now s act.now result (M.Memory.meaning logbook.new.memory) logbook.new.state logbook.new.taken }
{
    match act {
        Act::Put { key, reading } => steps(logbook.put(key, *reading)),
        Act::Change { key, reading } => steps(logbook.change(key, *reading)),
        Act::Remove { key } => removed(logbook.remove(key)),
        Act::Find { key } => found(logbook.find(key)),
        Act::Next { key } => next(logbook.next(key)),
        Act::Pairs => number(logbook.pairs()),
        Act::Node { number } => node(logbook, *number),
        Act::Cut { from, steps } => opened(logbook.cut(choices_from(choices, *from), *steps)),
    }
}

// As many acts as there are places for what is told of them.
fn play_on<K: Key, M: Settle>(
    logbook: &mut Logbook<K, M>,
    acts: &[Act<K>],
    choices: &[u64],
    told: &mut [Told],
)
    ensures played { (s : Indexed) → Same (M.Memory.meaning logbook.old.memory) logbook.old.state logbook.old.taken s → Sound (in_words K.Key.kind) (M.Memory.meaning logbook.old.memory).live logbook.old.state → CarriedAll K.Key.kind choices.now s (take (min (length acts.now) (length told.old)) acts.now) (take (min (length acts.now) (length told.old)) told.new) (M.Memory.meaning logbook.new.memory) logbook.new.state logbook.new.taken }
    ensures rest { (length told.new ≡ length told.old) × (drop (min (length acts.now) (length told.old)) told.new ≡ drop (min (length acts.now) (length told.old)) told.old) }
{
    for i in 0..acts.len().min(told.len()) {
        told[i] = carry(logbook, &acts[i], choices);
    }
}

// Makes an empty book of so many leaves in the memory, and plays the acts on it one after the other, as many as there are places for
// what is told of them. Told beside the memory: whether the format was granted; nothing is played where it was refused.
pub fn play<K: Key, M: Settle>(
    memory: M,
    leaves: usize,
    acts: &[Act<K>],
    choices: &[u64],
    told: &mut [Told],
) -> (M, Result<(), Refusal>)
    ensures format { result.1 ≡ (format_run (in_words K.Key.kind) Blank (M.Memory.meaning memory) leaves).ended }
    ensures refused { result.1 ≡ Ok tt ⊎ ((M.Memory.meaning result.0 ≡ (format_run (in_words K.Key.kind) Blank (M.Memory.meaning memory) leaves).after) × (told.new ≡ told.old)) }
    ensures session { result.1 ≡ Ok tt → Session K.Key.kind (M.Memory.meaning memory) leaves choices.now (take (min (length acts.now) (length told.old)) acts.now) (take (min (length acts.now) (length told.old)) told.new) (M.Memory.meaning result.0) }
    ensures rest { (length told.new ≡ length told.old) × (drop (min (length acts.now) (length told.old)) told.new ≡ drop (min (length acts.now) (length told.old)) told.old) }
{
    let mut logbook = Logbook::<K, M>::new(memory);
    let formatted = logbook.format(leaves);
    if formatted.is_err() {
        return (logbook.release(), formatted);
    }
    play_on(&mut logbook, acts, choices, told);
    (logbook.release(), formatted)
}
