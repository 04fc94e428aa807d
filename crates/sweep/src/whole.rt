// A call that is swept: what it does whole, and what it is cut off from.
use super::failure::Failure;
use super::last::Last;
use super::stop::{Stop, stopped};
use desk::answer::{Told, Trouble};
use desk::pile::piled;
use keys::port::Port;
use keys::stamp::Stamp;
use makes::buffered::Buffered;
use opened::book::{Opened, cut};
use opened::mixes::mix_count;
use script::line::Kind;
use script::wrong::Mistake;
use std::alloc::{AllocError, Global};

// More steps than any call takes.
const PLENTY: u64 = 1000;

// The commit word, which a call stores last: its place at the bottom, and what it holds before that store and after.
#[derive(Clone, Copy)]
pub struct Commit {
    pub at: usize,
    pub old: u64,
    pub new: u64,
}

// What the call tells with plenty of steps, how many it takes, and the books before it and with it done.
#[derive(Drop)]
pub struct Whole {
    pub told: Result<Told, Trouble>,
    pub steps: u64,
    pub commit: Option<Commit>,
    pub before: Opened,
    pub done: Opened,
    // the cuts of the sweep
    pub cuts: u64,
}

// What opens after the supply is lost where the call stopped, by these choices.
pub fn opens(alloc: Global, stop: &Stop, choice: &[u64]) -> Result<Opened, AllocError> {
    let mut live = stop.live.clone()?;
    let mut firm = stop.firm.clone()?;
    let bottom = Buffered::new(&mut live, &mut firm, 0);
    let pile = piled(bottom, stop.layers.as_slice());
    match stop.kind {
        Kind::Stamp => cut::<Stamp, _>(alloc, pile, choice),
        Kind::Port => cut::<Port, _>(alloc, pile, choice),
    }
}

// The first unsettled word.
fn first_unsettled(live: &[u64], firm: &[u64]) -> Option<Commit> {
    for (at, new) in live.iter().enumerate() {
        if at < firm.len() && *new != firm[at] {
            return Some(Commit {
                at,
                old: firm[at],
                new: *new,
            });
        }
    }
    None
}

// The commit word: the one that is not yet flushed when the last step is missing.
fn commit_of(alloc: Global, last: &Last<'_>, steps: u64) -> Result<Option<Commit>, Failure> {
    if steps == 0 {
        return Ok(None);
    }
    let stop = stopped(alloc, last, steps - 1)?;
    Ok(first_unsettled(stop.live.as_slice(), stop.firm.as_slice()))
}

// How many cuts there are: the mixes after each number of steps.
fn cuts(alloc: Global, last: &Last<'_>, steps: u64) -> Result<u64, Failure> {
    let mut cuts = 0u64;
    for step in 0..=steps {
        let stop = stopped(alloc, last, step)?;
        let mixes = mix_count(stop.live.as_slice(), stop.firm.as_slice());
        cuts = cuts.saturating_add(mixes.unwrap_or(0));
    }
    Ok(cuts)
}

// The call done with plenty of steps, and not begun.
pub fn whole_call(alloc: Global, last: &Last<'_>) -> Result<Whole, Failure> {
    let end = stopped(alloc, last, PLENTY)?;
    if let Err(Trouble::Wrong(wrong)) = end.told {
        let line = last.line;
        return Err(Mistake { line, wrong }.into());
    }
    let start = stopped(alloc, last, 0)?;
    let steps = end.taken;
    let none = vec![in alloc; 0; end.live.len()]?;
    Ok(Whole {
        told: end.told,
        steps,
        commit: commit_of(alloc, last, steps)?,
        before: opens(alloc, &start, none.as_slice())?,
        done: opens(alloc, &end, none.as_slice())?,
        cuts: cuts(alloc, last, steps)?,
    })
}
