// A script played up to its last call, and that call cut off after so many steps.
ghost use Rattle.std.specs.Prelude.{◌≡◌, ◌↔◌, IfOk, IsOk, IsSome};
ghost use Rattle.makes.specs.Probes.{steps_of};
ghost use Rattle.memory.specs.Meaning.{Settled};

use super::failure::Failure;
use super::last::Last;
use console::play::Console;
use desk::answer::{Told, Trouble};
use desk::layered::Desk;
use desk::runs::Runs;
use fixed_vec::FixedVec;
use layers::chosen::Sort;
use makes::buffered::Buffered;
use makes::probe::Probe;
use makes::through::Through;
use memory::Settle;
use script::line::Kind;
use script::wrong::{Mistake, Wrong};
use std::alloc::{AllocError, Global};
use std::io::{self, Sink};

// The words of the memory at the bottom when the call is over or cut off, with what it told and the steps that it took.
#[derive(Drop)]
pub struct Stop {
    pub live: Vec<u64>,
    pub firm: Vec<u64>,
    pub layers: FixedVec<Sort, 3>,
    pub kind: Kind,
    pub told: Result<Told, Trouble>,
    pub taken: u64,
}

// The lines over one memory lead to the next memory that is named, or to the last call.
#[derive(Drop)]
enum Over {
    Named(Runs),
    Stopped(Stop),
}

type Silent<'a> = Console<&'a [u8], Sink>;

fn copied(alloc: Global, words: &[u64]) -> Result<Vec<u64>, AllocError>
    ensures { IfOk result (λ copy. copy.items ≡ words.now) }
{
    let mut copy = vec![in alloc; 0; words.len()]?;
    copy.copy_from_slice(words);
    Ok(copy)
}

// Whether a memory can be swept: its steps end, and it is settled.
fn can_sweep<B: Probe>(bottom: &B) -> Result<(), Wrong>
    ensures { IsOk result ↔ (IsSome (steps_of (B.Memory.meaning bottom.now)) × Settled (B.Memory.meaning bottom.now)) }
{
    if bottom.steps().is_none() {
        return Err(Wrong::EndlessSteps);
    }
    let (live, firm) = bottom.words();
    if live != firm {
        return Err(Wrong::NotSettled);
    }
    Ok(())
}

// The call with so many steps.
fn call<B: Probe + Drop>(
    alloc: Global,
    desk: Desk<B>,
    kind: Kind,
    last: &Last<'_>,
    steps: u64,
) -> Result<Stop, AllocError> {
    let Desk { mut book, layers } = desk;
    book.bottom_mut().supply(steps);
    let told = book.ask(last.call);
    let left = book.bottom().steps().unwrap_or(0);
    let (live, firm) = book.bottom().words();
    Ok(Stop {
        live: copied(alloc, live)?,
        firm: copied(alloc, firm)?,
        layers,
        kind,
        told,
        taken: steps.saturating_sub(left),
    })
}

// Plays the lines over one memory.
fn play_over<B: Probe + Settle + Drop>(
    console: &mut Silent<'_>,
    bottom: B,
    last: &Last<'_>,
    steps: u64,
) -> Result<Over, Failure> {
    let (desk, named) = console.over(bottom)?;
    if let Some(runs) = named {
        return Ok(Over::Named(runs));
    }
    if let Some(mistake) = console.mistake {
        return Err(mistake.into());
    }
    let line = last.line;
    let Some(kind) = console.kind else {
        return Err(Mistake {
            line,
            wrong: Wrong::NoKind,
        }
        .into());
    };
    if let Err(wrong) = can_sweep(desk.book.bottom()) {
        return Err(Mistake { line, wrong }.into());
    }
    Ok(Over::Stopped(call(console.alloc, desk, kind, last, steps)?))
}

// Plays the script, and its last call with so many steps.
pub fn stopped(alloc: Global, last: &Last<'_>, steps: u64) -> Result<Stop, Failure> {
    let mut console = Console::new(alloc, last.before, io::sink());
    let mut named = console.before()?;
    for _ in 0..u64::MAX {
        let played = match named {
            None => break,
            Some(Runs::Through { mut run }) => {
                play_over(&mut console, Through::new(&mut run), last, steps)?
            }
            Some(
                Runs::Buffered {
                    mut live,
                    mut firm,
                    steps: given,
                },
            ) => {
                let bottom = Buffered::new(&mut live, &mut firm, given);
                play_over(&mut console, bottom, last, steps)?
            }
        };
        match played {
            Over::Named(runs) => named = Some(runs),
            Over::Stopped(stop) => return Ok(stop),
        }
    }
    let missing = Mistake {
        line: last.line,
        wrong: Wrong::NoMemory,
    };
    Err(console.mistake.unwrap_or(missing).into())
}
