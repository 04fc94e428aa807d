// Calls of a logbook itself, one after the other.
use crate::answer::Answer;
use crate::call::{Call, choices_from};
use crate::piles::Use;
use crate::told::{
    of_cut, of_find, of_format, of_next, of_node, of_open, of_pairs, of_remove, of_steps,
};
use index::record::NodeRecord;
use keys::Key;
use memory::Settle;
use std::alloc::{AllocError, Global};
use tree::logbook::Logbook;

// The calls, and what each was answered.
#[derive(Drop)]
pub struct Calling<'a> {
    pub alloc: Global,
    pub calls: &'a [Call],
    pub choices: &'a [u64],
    pub told: Vec<Answer>,
}

fn node<K: Key, M: Settle>(logbook: &Logbook<K, M>, number: usize) -> Answer {
    let mut record = NodeRecord::new();
    let answer = logbook.node(number, &mut record);
    of_node(answer, &record)
}

// The answer of a call; 10 where the kind refuses its key.
fn answer_to<K: Key, M: Settle>(
    logbook: &mut Logbook<K, M>,
    call: &Call,
    choices: &[u64],
) -> Answer {
    match *call {
        Call::Format { leaves } => of_format(logbook.format(leaves)),
        Call::Open => of_open(logbook.open()),
        Call::Pairs => of_pairs(logbook.pairs()),
        Call::Node { number } => node(logbook, number),
        Call::Cut { from, steps } => of_cut(logbook.cut(choices_from(choices, from), steps)),
        Call::Put { key, .. }
        | Call::Change { key, .. }
        | Call::Remove { key }
        | Call::Find { key }
        | Call::Next { key } => match K::unpack(key) {
            Ok(key) => keyed(logbook, call, &key),
            Err(refusal) => of_format(Err(refusal)),
        },
    }
}

// The answer of a call with a key.
fn keyed<K: Key, M: Settle>(logbook: &mut Logbook<K, M>, call: &Call, key: &K) -> Answer {
    match *call {
        Call::Put { reading, .. } => of_steps(logbook.put(key, reading)),
        Call::Change { reading, .. } => of_steps(logbook.change(key, reading)),
        Call::Remove { .. } => of_remove(logbook.remove(key)),
        Call::Next { .. } => of_next(logbook.next(key)),
        _ => of_find(logbook.find(key)),
    }
}

impl Use for Calling<'_> {
    fn on<K: Key, M: Settle + Drop>(&mut self, memory: M) -> Result<M, AllocError> {
        let mut logbook = Logbook::<K, M>::new(memory);
        for asked in self.calls {
            let answer = answer_to(&mut logbook, asked, self.choices);
            self.told.push(answer)?;
        }
        Ok(logbook.release())
    }
}
