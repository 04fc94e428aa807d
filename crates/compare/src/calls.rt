// Random calls.
use crate::call::Call;
use crate::dice::Dice;
use crate::kinds::Words;
use std::alloc::{AllocError, Global};

// The choices of a list: all live, all firm, and then any, each as many as there are words.
pub fn choices(alloc: Global, dice: &mut Dice, size: usize) -> Result<Vec<u64>, AllocError> {
    let mut choices = vec![in alloc; 1; size]?;
    for _ in 0..size {
        choices.push(0)?;
    }
    for _ in 0..size.saturating_mul(2) {
        choices.push(dice.roll())?;
    }
    Ok(choices)
}

// Where the choices of a cut begin; sometimes too few are left.
fn choice(dice: &mut Dice, size: usize) -> usize {
    match dice.below(12) {
        0 => size.saturating_mul(3).saturating_add(dice.index(size)),
        1 => dice.index(1_000_000),
        2..=4 => 0,
        5..=7 => size,
        _ => size.saturating_mul(2).saturating_add(dice.index(size)),
    }
}

fn reading(dice: &mut Dice) -> u64 {
    match dice.below(4) {
        0 => dice.roll(),
        _ => dice.below(3),
    }
}

fn node_number(dice: &mut Dice) -> usize {
    match dice.below(6) {
        0 => dice.index(100),
        _ => dice.index(20),
    }
}

// A call of a sort, as the weights list them.
pub fn any_call(dice: &mut Dice, sort: usize, key: Words) -> Call {
    match sort {
        0 => Call::Put {
            key,
            reading: reading(dice),
        },
        1 => Call::Change {
            key,
            reading: reading(dice),
        },
        2 => Call::Remove { key },
        3 => Call::Find { key },
        4 => Call::Next { key },
        5 => Call::Pairs,
        _ => Call::Node {
            number: node_number(dice),
        },
    }
}

pub fn any_cut(dice: &mut Dice, size: usize, steps: u64) -> Call {
    Call::Cut {
        from: choice(dice, size),
        steps,
    }
}
