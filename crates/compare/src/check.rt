// A list played by the rules and by the session, and compared after its calls.
use crate::answer::Answer;
use crate::call::Call;
use crate::difference::{Difference, What};
use crate::lists::{List, Setting};
use crate::model::Model;
use crate::piles::{Left, on_setting};
use crate::session_play::Playing;
use crate::tally::{Tally, count};
use crate::words::Memory;
use std::alloc::{AllocError, Global};

pub type Checked = Result<Option<Difference>, AllocError>;

// What differs, and in which call, or after it.
pub type Found = Option<(usize, What)>;

// The session tells every node after the calls of a list, and one past the last.
pub const NODES: usize = 92;

// The rules' logbook over a memory of this setting.
pub fn reckoning(alloc: Global, setting: &Setting) -> Result<Model, AllocError> {
    let firm = match setting.steps {
        None => setting.live.as_slice(),
        Some(_) => setting.firm.as_slice(),
    };
    let memory = Memory::new(
        alloc,
        setting.live.as_slice(),
        firm,
        setting.steps,
        setting.layers.as_slice(),
    )?;
    Ok(Model::new(alloc, setting.kind, memory))
}

// The first word that differs.
fn unlike(ours: &[u64], theirs: &[u64]) -> Option<(usize, u64, u64)> {
    for (at, (ours, theirs)) in ours.iter().zip(theirs.iter()).enumerate() {
        if ours != theirs {
            return Some((at, *ours, *theirs));
        }
    }
    None
}

// The words of both sides; the firm words of a through memory are its live ones.
fn compare_words(memory: &Memory, left: &Left, tally: &mut Tally) -> Option<What> {
    if let Some((at, ours, theirs)) = unlike(memory.live.as_slice(), left.live.as_slice()) {
        return Some(What::Live { at, ours, theirs });
    }
    let firm = match memory.steps {
        None => left.live.as_slice(),
        Some(_) => left.firm.as_slice(),
    };
    if let Some((at, ours, theirs)) = unlike(memory.firm.as_slice(), firm) {
        return Some(What::Firm { at, ours, theirs });
    }
    let words = left.live.len().saturating_add(firm.len());
    tally.words = tally.words.saturating_add(words as u64);
    None
}

// What both sides have in the end: words, steps, and that the rules' side agrees with itself.
pub fn compare_left(model: &Model, left: &Left, tally: &mut Tally) -> Option<What> {
    let found = compare_words(&model.memory, left, tally);
    if found.is_some() {
        return found;
    }
    if model.memory.steps != left.steps {
        return Some(What::Steps {
            ours: model.memory.steps,
            theirs: left.steps,
        });
    }
    count(&mut tally.steps);
    model.flaw.map(|flaw| What::Flaw { flaw })
}

// Every node, from what was told of them after the calls.
fn compare_nodes(model: &Model, told: &[Answer], tally: &mut Tally) -> Option<What> {
    for node in 0..NODES {
        let ours = model.node(node);
        let theirs = told.get(node).copied().unwrap_or(Answer::NotPlayed);
        if ours != theirs {
            return Some(What::Node { node, ours, theirs });
        }
        count(&mut tally.nodes);
    }
    None
}

// The answers from one call on.
pub fn compare_answers(ours: &[Answer], theirs: &[Answer], from: usize) -> Found {
    for (call, ours) in ours.iter().enumerate().skip(from) {
        let theirs = theirs.get(call).copied().unwrap_or(Answer::NotPlayed);
        if *ours != theirs {
            let ours = *ours;
            return Some((call, What::Answer { ours, theirs }));
        }
    }
    None
}

// With the call that it is found in.
pub fn told_of(calls: &[Call], found: Found) -> Option<Difference> {
    let (number, what) = found?;
    let call = *calls.get(number)?;
    Some(Difference { number, call, what })
}

// The session's play of the first calls of a list.
fn played<'a>(
    alloc: Global,
    list: &'a List,
    calls: &'a [Call],
) -> Result<(Playing<'a>, Left), AllocError> {
    let mut playing = Playing {
        alloc,
        leaves: list.leaves,
        calls,
        choices: list.choices.as_slice(),
        told: Vec::new(alloc),
    };
    let left = on_setting(&list.setting, &mut playing)?;
    Ok((playing, left))
}

// The rules' logbook after so many calls, against the session's; the answers from one call on.
fn compare_beginning(
    list: &List,
    model: &Model,
    ours: &[Answer],
    from: usize,
    tally: &mut Tally,
) -> Checked {
    let calls = list.calls.as_slice();
    let beginning = calls.get(..ours.len()).unwrap_or(&[]);
    let (playing, left) = played(list.alloc, list, beginning)?;
    count(&mut tally.plays);
    let told = playing.told.as_slice();
    let nodes = told.get(ours.len()..).unwrap_or(&[]);
    let last = ours.len().saturating_sub(1);
    let mut found = compare_answers(ours, told, from);
    if found.is_none() {
        found = compare_left(model, &left, tally).map(|what| (last, what));
    }
    if found.is_none() {
        found = compare_nodes(model, nodes, tally).map(|what| (last, what));
    }
    Ok(told_of(calls, found))
}

// A list whose format is refused: nothing else is played.
fn compare_refused(list: &List, model: &Model, refused: Answer, tally: &mut Tally) -> Checked {
    let calls = list.calls.as_slice();
    let (playing, left) = played(list.alloc, list, calls)?;
    count(&mut tally.plays);
    let mut ours = vec![in list.alloc; refused]?;
    for _ in 1..playing.told.len() {
        ours.push(Answer::NotPlayed)?;
    }
    let mut found = compare_answers(ours.as_slice(), playing.told.as_slice(), 0);
    if found.is_none() {
        found = compare_left(model, &left, tally).map(|what| (0, what));
    }
    Ok(told_of(calls, found))
}

// Plays a list by the rules, and compares it with the session at every stride and in the end.
pub fn compare_list(list: &List, model: &mut Model, stride: usize, tally: &mut Tally) -> Checked {
    let mut ours = Vec::new(list.alloc);
    let mut compared = 0_usize;
    for (number, call) in list.calls.iter().enumerate() {
        let answer = model.call(call, list.choices.as_slice(), tally)?;
        tally.call(call, &answer);
        ours.push(answer)?;
        if number == 0 && answer != Answer::Granted {
            return compare_refused(list, model, answer, tally);
        }
        if number % stride.max(1) == 0 || ours.len() == list.calls.len() {
            let found = compare_beginning(list, model, ours.as_slice(), compared, tally)?;
            if found.is_some() {
                return Ok(found);
            }
            compared = ours.len();
        }
    }
    Ok(None)
}
