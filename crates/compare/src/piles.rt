// The make of a setting under its layers, for whatever is done with a memory.
use crate::kinds::Kind;
use crate::lists::Setting;
use crate::shown::Layer;
use keys::Key;
use keys::port::Port;
use keys::stamp::Stamp;
use layers::chosen::{Chosen, Sort};
use layers::margin::Margin;
use layers::rotation::Rotation;
use makes::buffered::Buffered;
use makes::probe::Probe;
use makes::through::Through;
use memory::Settle;
use std::alloc::AllocError;

// What is done with a memory, and gives it back.
pub trait Use {
    fn on<K: Key, M: Settle + Drop>(&mut self, memory: M) -> Result<M, AllocError>;
}

// The words of the make afterwards, and its steps.
#[derive(Drop)]
pub struct Left {
    pub live: Vec<u64>,
    pub firm: Vec<u64>,
    pub steps: Option<u64>,
}

fn sort_at(layers: &[Layer], at: usize) -> Sort {
    match layers.get(at) {
        Some(Layer::Margin { lines }) => Sort::Hides(*lines),
        Some(Layer::Rotation { by }) => Sort::Turns(*by),
        None => Sort::Hides(0),
    }
}

fn on_chosen<K: Key, B: Settle + Drop, U: Use>(
    bottom: B,
    layers: &[Layer],
    act: &mut U,
) -> Result<B, AllocError> {
    let first = Chosen::new(bottom, sort_at(layers, 0));
    let second = Chosen::new(first, sort_at(layers, 1));
    let third = Chosen::new(second, sort_at(layers, 2));
    let pile = act.on::<K, _>(third)?;
    Ok(pile.release().release().release())
}

// No layer, one of its own type, one upon another, or up to three that are chosen.
fn on_pile<K: Key, B: Settle + Drop, U: Use>(
    bottom: B,
    layers: &[Layer],
    act: &mut U,
) -> Result<B, AllocError> {
    match *layers {
        [] => act.on::<K, B>(bottom),
        [Layer::Margin { lines }] => { Ok(act.on::<K, _>(Margin::new(bottom, lines))?.release()) }
        [Layer::Rotation { by }] => { Ok(act.on::<K, _>(Rotation::new(bottom, by))?.release()) }
        [Layer::Margin { lines }, Layer::Rotation { by }] => {
            let pile = Rotation::new(Margin::new(bottom, lines), by);
            Ok(act.on::<K, _>(pile)?.release().release())
        }
        _ => on_chosen::<K, B, U>(bottom, layers, act),
    }
}

fn on_make<K: Key, U: Use>(setting: &Setting, act: &mut U) -> Result<Left, AllocError> {
    let mut live = setting.live.clone()?;
    let mut firm = setting.firm.clone()?;
    let layers = setting.layers.as_slice();
    let steps = match setting.steps {
        None => {
            let make = Through::new(live.as_mut_slice());
            on_pile::<K, _, U>(make, layers, act)?.steps()
        }
        Some(steps) => {
            let make = Buffered::new(live.as_mut_slice(), firm.as_mut_slice(), steps);
            on_pile::<K, _, U>(make, layers, act)?.steps()
        }
    };
    Ok(Left { live, firm, steps })
}

// Does it with a new memory of the setting, for its kind of key.
pub fn on_setting<U: Use>(setting: &Setting, act: &mut U) -> Result<Left, AllocError> {
    match setting.kind {
        Kind::Stamp => on_make::<Stamp, U>(setting, act),
        Kind::Port => on_make::<Port, U>(setting, act),
    }
}
