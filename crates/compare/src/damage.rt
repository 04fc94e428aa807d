// Random damaged words, and calls of a logbook on them: opening, and what it tells when it is open or blank.
use crate::answer::Answer;
use crate::call::Call;
use crate::calls::{any_call, any_cut};
use crate::check::{Checked, NODES, compare_answers, compare_left, reckoning, told_of};
use crate::dice::Dice;
use crate::direct::Calling;
use crate::kinds::Kind;
use crate::layout::{leaf_word, slot_word};
use crate::lists::{List, Setting, unsettle};
use crate::model::Model;
use crate::piles::on_setting;
use crate::tally::{Tally, count};
use crate::words::{set, word};
use std::alloc::{AllocError, Global};

// A word that a logbook of so many leaves reads.
fn place(dice: &mut Dice, leaves: usize) -> usize {
    let leaf = dice.index(leaves).saturating_add(1);
    match dice.below(6) {
        0 => dice.index(4),
        1 | 2 => leaf_word(leaf, dice.index(3)),
        _ => slot_word(leaf, dice.index(10), dice.index(4)),
    }
}

// A word that is often nearly right.
fn near(dice: &mut Dice, old: u64, other: u64, leaves: usize) -> u64 {
    match dice.below(9) {
        0 => old.wrapping_add(1),
        1 => old.wrapping_sub(1),
        2 => other,
        3 => dice.below((leaves as u64).saturating_add(3)),
        4 => dice.below(3),
        5 => dice.below(20),
        6 => dice.below(70),
        7 => old ^ 1,
        _ => dice.roll(),
    }
}

// Words of the make made others, in the places that the logbook reads.
fn poke(dice: &mut Dice, model: &Model, words: &mut Vec<u64>, leaves: usize) {
    for _ in 0..dice.below(4) {
        let at = place(dice, leaves);
        let other = model.memory.read(place(dice, leaves));
        if let Some(place) = model.memory.place(at) {
            let old = word(words.as_slice(), place);
            set(words, place, near(dice, old, other, leaves));
        }
    }
}

// The words that a list has left, with some damage; the make may be another one, a little shorter or unsettled, and the kind of key
// another.
fn damaged(
    alloc: Global,
    dice: &mut Dice,
    list: &List,
    model: &Model,
) -> Result<Setting, AllocError> {
    let mut live = model.memory.live.clone()?;
    poke(dice, model, &mut live, list.leaves.clamp(1, 64));
    if dice.once_in(16) {
        live.truncate(live.len().saturating_sub(dice.index(100)));
    }
    let mut firm = live.clone()?;
    if dice.once_in(3) {
        unsettle(dice, &mut firm, 8);
    }
    let kind = match dice.below(16) {
        0 => Kind::any(dice),
        _ => list.setting.kind,
    };
    Ok(Setting {
        kind,
        steps: match dice.below(3) {
            0 => None,
            1 => Some(dice.below(40)),
            _ => Some(10_000),
        },
        layers: Vec::from_slice(alloc, list.setting.layers.as_slice())?,
        live,
        firm,
    })
}

// Opening, how many pairs there are, every node if it is granted, and then any calls.
fn calls_on(
    alloc: Global,
    dice: &mut Dice,
    setting: &Setting,
    opens: bool,
) -> Result<Vec<Call>, AllocError> {
    let mut calls = vec![in alloc; Call::Open]?;
    calls.push(Call::Pairs)?;
    let (nodes, many) = if opens { (NODES, 60) } else { (2, 10) };
    for number in 0..nodes {
        calls.push(Call::Node { number })?;
    }
    for _ in 0..dice.below(many) {
        calls.push(any_of_all(dice, setting))?;
    }
    Ok(calls)
}

// A call of any sort.
fn any_of_all(dice: &mut Dice, setting: &Setting) -> Call {
    let sort = dice.index(7);
    let key = setting.kind.key(dice.below(60));
    match dice.below(30) {
        0 => Call::Open,
        1 => Call::Format {
            leaves: dice.index(9),
        },
        2 | 3 => {
            let steps = dice.below(60);
            any_cut(dice, setting.live.len(), steps)
        }
        _ => any_call(dice, sort, key),
    }
}

// Plays calls by the rules and on a logbook, and compares them.
fn compare_calls(
    alloc: Global,
    setting: &Setting,
    calls: &[Call],
    choices: &[u64],
    tally: &mut Tally,
) -> Checked {
    let mut model = reckoning(alloc, setting)?;
    let mut ours: Vec<Answer> = Vec::new(alloc);
    for call in calls {
        let answer = model.call(call, choices, tally)?;
        tally.call(call, &answer);
        ours.push(answer)?;
    }
    let mut calling = Calling {
        alloc,
        calls,
        choices,
        told: Vec::new(alloc),
    };
    let left = on_setting(setting, &mut calling)?;
    count(&mut tally.direct);
    let last = ours.len().saturating_sub(1);
    let mut found = compare_answers(ours.as_slice(), calling.told.as_slice(), 0);
    if found.is_none() {
        found = compare_left(&model, &left, tally).map(|what| (last, what));
    }
    Ok(told_of(calls, found))
}

// Whether the rules' logbook opens these words.
fn opens(alloc: Global, setting: &Setting) -> Result<bool, AllocError> {
    let mut tally = Tally::new();
    let mut model = reckoning(alloc, setting)?;
    let answer = model.call(&Call::Open, &[], &mut tally)?;
    Ok(answer == Answer::Granted)
}

// Damaged copies of what a list has left.
pub fn compare_damaged(dice: &mut Dice, list: &List, model: &Model, tally: &mut Tally) -> Checked {
    let alloc = list.alloc;
    for _ in 0..12 {
        let setting = damaged(alloc, dice, list, model)?;
        let opens = opens(alloc, &setting)?;
        let calls = calls_on(alloc, dice, &setting, opens)?;
        let choices = list.choices.as_slice();
        let found = compare_calls(alloc, &setting, calls.as_slice(), choices, tally)?;
        if found.is_some() {
            return Ok(found);
        }
    }
    Ok(None)
}
