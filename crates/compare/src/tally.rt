// What was compared, in numbers.
use crate::answer::Answer;
use crate::call::Call;
use crate::plan::Sort;
use std::io;

// What became of the waiting call at a cut.
#[derive(Clone, Copy)]
pub enum Fate {
    NoneWaited,
    Made,
    Dropped,
}

#[derive(Clone, Copy)]
pub struct Tally {
    pub lists: u64,
    pub plays: u64,
    pub direct: u64,
    pub words: u64,
    pub steps: u64,
    pub nodes: u64,
    pub keys: u64,
    pub linked: usize,
    pub chosen: u64,
    calls: [u64; 10],
    refusals: [u64; 15],
    sorts: [u64; 4],
    fates: [u64; 3],
}

pub fn count(counter: &mut u64) {
    *counter = counter.saturating_add(1);
}

fn count_at(counters: &mut [u64], at: usize) {
    if let Some(counter) = counters.get_mut(at) {
        count(counter);
    }
}

impl Tally {
    pub fn new() -> Self {
        Tally {
            lists: 0,
            plays: 0,
            direct: 0,
            words: 0,
            steps: 0,
            nodes: 0,
            keys: 0,
            linked: 0,
            chosen: 0,
            calls: [0; 10],
            refusals: [0; 15],
            sorts: [0; 4],
            fates: [0; 3],
        }
    }

    // A call and its answer, which were the same on both sides.
    pub fn call(&mut self, call: &Call, answer: &Answer) {
        count_at(&mut self.calls, call.sort());
        self.refusal(answer.refusal());
    }

    pub fn refusal(&mut self, number: u64) {
        count_at(&mut self.refusals, number as usize);
    }

    pub fn sort(&mut self, sort: Sort) {
        let at = match sort {
            Sort::Append => 0,
            Sort::Split => 1,
            Sort::Merge => 2,
            Sort::Replacement => 3,
        };
        count_at(&mut self.sorts, at);
    }

    pub fn fate(&mut self, fate: Fate) {
        let at = match fate {
            Fate::NoneWaited => 0,
            Fate::Made => 1,
            Fate::Dropped => 2,
        };
        count_at(&mut self.fates, at);
    }

    pub fn show(&self, rt: &impl Print) -> io::Result<()> {
        let Tally {
            lists,
            plays,
            direct,
            words,
            steps,
            nodes,
            keys,
            ..
        } = *self;
        println!(rt;
            "  lists {lists}: played {plays} times by the session; {direct} lists called on a logbook of damaged words"
        )?;
        self.show_calls(rt)?;
        println!(rt;
            "  compared beside the answers: words {words}, numbers of steps left {steps}, nodes {nodes}, keys made {keys}"
        )
    }

    fn show_calls(&self, rt: &impl Print) -> io::Result<()> {
        let [
            format,
            open,
            put,
            change,
            remove,
            find,
            next,
            pairs,
            node,
            cut,
        ] = self.calls;
        println!(rt;
            "  calls: format {format}, open {open}, put {put}, change {change}, remove {remove}, find {find}, next {next}, pairs {pairs}, node {node}, cut {cut}"
        )?;
        let [append, split, merge, replacement] = self.sorts;
        let linked = self.linked;
        println!(rt;
            "  granted with steps: append {append}, split {split}, merge {merge}, replacement {replacement}; at most {linked} leaves linked"
        )?;
        let [none, made, dropped] = self.fates;
        let chosen = self.chosen;
        println!(rt;
            "  cuts: no call waited {none}, the waiting call stood new {made}, did not {dropped}; words old or new by choice {chosen}"
        )?;
        print!(rt; "  refusals:")?;
        for (number, many) in self.refusals.iter().enumerate().skip(1) {
            print!(rt; " {number}: {many}")?;
        }
        println!(rt; "")
    }
}
