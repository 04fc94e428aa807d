// A list played by the session.
use crate::answer::Answer;
use crate::call::Call;
use crate::check::NODES;
use crate::piles::Use;
use crate::told::{of_act, of_format};
use keys::Key;
use memory::Settle;
use session::act::{Act, Told};
use session::play::play;
use std::alloc::{AllocError, Global};

// The list, its format first, and what was told of it.
#[derive(Drop)]
pub struct Playing<'a> {
    pub alloc: Global,
    pub leaves: usize,
    pub calls: &'a [Call],
    pub choices: &'a [u64],
    pub told: Vec<Answer>,
}

// A call as an act of the session; a format and an opening are none, nor is a call whose key the kind refuses.
fn act_of<K: Key>(call: &Call) -> Option<Act<K>> {
    match *call {
        Call::Format { .. } | Call::Open => None,
        Call::Put { key, reading } => Some(Act::Put {
            key: K::unpack(key).ok()?,
            reading,
        }),
        Call::Change { key, reading } => Some(Act::Change {
            key: K::unpack(key).ok()?,
            reading,
        }),
        Call::Remove { key } => Some(Act::Remove {
            key: K::unpack(key).ok()?,
        }),
        Call::Find { key } => Some(Act::Find {
            key: K::unpack(key).ok()?,
        }),
        Call::Next { key } => Some(Act::Next {
            key: K::unpack(key).ok()?,
        }),
        Call::Pairs => Some(Act::Pairs),
        Call::Node { number } => Some(Act::Node { number }),
        Call::Cut { from, steps } => Some(Act::Cut { from, steps }),
    }
}

// The calls, and every node after them.
fn acts<K: Key>(alloc: Global, calls: &[Call]) -> Result<Vec<Act<K>>, AllocError> {
    let mut acts = Vec::new(alloc);
    for call in calls {
        if let Some(act) = act_of::<K>(call) {
            acts.push(act)?;
        }
    }
    for number in 0..NODES {
        acts.push(Act::Node { number })?;
    }
    Ok(acts)
}

fn nothing(alloc: Global, many: usize) -> Result<Vec<Told>, AllocError> {
    let mut told = Vec::with_capacity(alloc, many)?;
    for _ in 0..many {
        told.push(Told::Nothing)?;
    }
    Ok(told)
}

impl Use for Playing<'_> {
    fn on<K: Key, M: Settle + Drop>(&mut self, memory: M) -> Result<M, AllocError> {
        let acts = acts::<K>(self.alloc, self.calls)?;
        let mut told = nothing(self.alloc, acts.len())?;
        let (memory, formatted) = play::<K, M>(
            memory,
            self.leaves,
            acts.as_slice(),
            self.choices,
            told.as_mut_slice(),
        );
        self.told.push(of_format(formatted))?;
        for told in told.iter() {
            self.told.push(of_act(told))?;
        }
        Ok(memory)
    }
}
