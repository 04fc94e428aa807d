// Random lists: the memory that a logbook lies in, and the calls.
use crate::call::Call;
use crate::calls::{any_call, any_cut, choices};
use crate::dice::Dice;
use crate::kinds::Kind;
use crate::layout::needed;
use crate::moods::{any_mood, first_mood, next_number, weighed};
use crate::shown::Layer;
use std::alloc::{AllocError, Global};

// A make under layers. No number of steps: a through memory, and then the firm words are not used.
#[derive(Drop)]
pub struct Setting {
    pub kind: Kind,
    pub steps: Option<u64>,
    pub layers: Vec<Layer>,
    pub live: Vec<u64>,
    pub firm: Vec<u64>,
}

// Whether the steps of a list's memory never end, seem not to, or end soon and again.
#[derive(Clone, Copy)]
enum Supply {
    Endless,
    Ample,
    Scarce,
}

// What is played: the calls, of which the first is a format of so many leaves. The session plays the list's beginnings, each by a stride
// longer than the one before.
#[derive(Drop)]
pub struct List {
    pub alloc: Global,
    pub setting: Setting,
    pub leaves: usize,
    pub calls: Vec<Call>,
    pub choices: Vec<u64>,
    pub stride: usize,
}

// The steps after a cut.
fn steps_after(dice: &mut Dice, supply: Supply) -> u64 {
    match (supply, dice.below(6)) {
        (Supply::Scarce, 0) => dice.below(14),
        (Supply::Scarce, 1 | 2) => dice.below(40),
        (Supply::Scarce, _) => dice.below(200),
        (_, 0) => u64::MAX,
        (_, _) => 1_000_000,
    }
}

// What a list is made of: leaves for the format, calls, keys to choose from, words at the bottom.
#[derive(Clone, Copy)]
struct Length {
    leaves: usize,
    calls: usize,
    keys: u64,
    size: usize,
}

fn is_cut(dice: &mut Dice, supply: Supply) -> bool {
    match supply {
        Supply::Scarce => dice.once_in(7),
        _ => dice.once_in(50),
    }
}

fn any_calls(
    alloc: Global,
    dice: &mut Dice,
    kind: Kind,
    supply: Supply,
    length: Length,
) -> Result<Vec<Call>, AllocError> {
    let mut calls = vec![in alloc;
        Call::Format {
            leaves: length.leaves
        },
    ]?;
    let mut mood = first_mood(dice, length.calls);
    let mut number = dice.below(length.keys);
    for _ in 0..length.calls {
        if mood.calls == 0 {
            mood = any_mood(dice, length.keys);
        }
        mood.calls = mood.calls.saturating_sub(1);
        number = next_number(dice, &mood, length.keys, number);
        calls.push(if is_cut(dice, supply) {
            let steps = steps_after(dice, supply);
            any_cut(dice, length.size, steps)
        } else {
            let sort = weighed(dice, &mood.weights);
            any_call(dice, sort, kind.key(number))
        })?;
    }
    Ok(calls)
}

fn any_layer(dice: &mut Dice) -> Layer {
    if dice.once_in(2) {
        let lines = match dice.below(40) {
            0 => dice.roll() as usize,
            _ => dice.index(4),
        };
        Layer::Margin { lines }
    } else {
        let by = match dice.below(8) {
            0 => dice.roll() as usize,
            _ => dice.index(60),
        };
        Layer::Rotation { by }
    }
}

// Up to three layers, and how many words they hide.
fn layers(alloc: Global, dice: &mut Dice) -> Result<(Vec<Layer>, usize), AllocError> {
    let mut layers = Vec::new(alloc);
    let mut hidden = 0_usize;
    for _ in 0..dice.below(4) {
        let layer = any_layer(dice);
        if let Layer::Margin { lines } = layer {
            hidden = hidden.saturating_add(lines.min(8).saturating_mul(8));
        }
        layers.push(layer)?;
    }
    Ok((layers, hidden))
}

fn run(alloc: Global, dice: &mut Dice, size: usize) -> Result<Vec<u64>, AllocError> {
    let mut run = vec![in alloc; 0; size]?;
    let sort = dice.below(3);
    for word in run.iter_mut() {
        *word = match sort {
            0 => 0,
            1 => dice.roll(),
            _ => dice.below(4),
        };
    }
    Ok(run)
}

// Makes one word in so many another one.
pub fn unsettle(dice: &mut Dice, words: &mut Vec<u64>, rarity: u64) {
    for word in words.iter_mut() {
        if dice.once_in(rarity) {
            *word = dice.below(4);
        }
    }
}

// The firm words: as the live ones, but perhaps one run longer than the other, and perhaps some words unsettled.
fn make_firm(dice: &mut Dice, live: &mut Vec<u64>) -> Result<Vec<u64>, AllocError> {
    let mut firm = live.clone()?;
    match dice.below(6) {
        0 => firm.push(dice.roll())?,
        1 => live.push(dice.roll())?,
        _ => (),
    }
    match dice.below(12) {
        0 => unsettle(dice, &mut firm, 8),
        1 => unsettle(dice, &mut firm, 60),
        _ => (),
    }
    Ok(firm)
}

fn make_steps(dice: &mut Dice, supply: Supply) -> Option<u64> {
    match supply {
        Supply::Endless => None,
        Supply::Ample => Some(1_000_000),
        Supply::Scarce => Some(dice.below(120)),
    }
}

fn any_supply(dice: &mut Dice) -> Supply {
    match dice.below(6) {
        0 => Supply::Endless,
        1..=3 => Supply::Ample,
        _ => Supply::Scarce,
    }
}

// A memory for so many leaves; sometimes a few words short.
fn any_setting(
    alloc: Global,
    dice: &mut Dice,
    supply: Supply,
    leaves: usize,
) -> Result<Setting, AllocError> {
    let (layers, hidden) = layers(alloc, dice)?;
    let enough = needed(leaves).saturating_add(hidden);
    let size = if dice.once_in(30) {
        enough.saturating_sub(dice.index(9))
    } else {
        enough.saturating_add(dice.index(10))
    };
    let mut live = run(alloc, dice, size)?;
    let firm = make_firm(dice, &mut live)?;
    Ok(Setting {
        kind: Kind::any(dice),
        steps: make_steps(dice, supply),
        layers,
        live,
        firm,
    })
}

// Leaves, calls, and the stride.
fn any_sizes(dice: &mut Dice) -> (usize, usize, usize) {
    match dice.below(40) {
        0 => (
            dice.index(25).saturating_add(40),
            dice.index(1000).saturating_add(1500),
            400,
        ),
        1..=3 => (
            dice.index(48).saturating_add(17),
            dice.index(600).saturating_add(400),
            100,
        ),
        4..=14 => (
            dice.index(14).saturating_add(4),
            dice.index(200).saturating_add(100),
            6,
        ),
        _ => (
            dice.index(4).saturating_add(2),
            dice.index(120).saturating_add(30),
            1,
        ),
    }
}

fn key_range(dice: &mut Dice, leaves: usize) -> u64 {
    let leaves = leaves as u64;
    match dice.below(4) {
        0 => 20,
        1 => leaves.saturating_mul(6),
        2 => leaves.saturating_mul(10),
        _ => leaves.saturating_mul(20),
    }
}

// The leaves to be formatted: now and then too few or too many.
fn formatted(dice: &mut Dice, leaves: usize) -> usize {
    match dice.below(60) {
        0 => dice.index(2),
        1 => dice.index(10).saturating_add(65),
        2 => dice.roll() as usize,
        _ => leaves,
    }
}

pub fn any_list(alloc: Global, dice: &mut Dice) -> Result<List, AllocError> {
    let (leaves, many, stride) = any_sizes(dice);
    let supply = any_supply(dice);
    let setting = any_setting(alloc, dice, supply, leaves)?;
    let size = setting.live.len().min(setting.firm.len());
    let length = Length {
        leaves: formatted(dice, leaves),
        calls: many,
        keys: key_range(dice, leaves),
        size,
    };
    let calls = any_calls(alloc, dice, setting.kind, supply, length)?;
    let choices = choices(alloc, dice, size)?;
    Ok(List {
        alloc,
        setting,
        leaves: length.leaves,
        calls,
        choices,
        stride,
    })
}
