// What many calls came to.
use index::record::{Holds, NodeRecord};
use keys::stamp::Stamp;
use memory::Memory;
use tree::logbook::Logbook;
use tree::logbook::carry::Halt;

// A call is an append by its steps, and a split, a merge or a replacement by how many leaves are linked after it.
#[derive(Clone, Copy)]
pub struct Tally {
    pub calls: usize,
    pub granted: usize,
    pub steps: usize,
    pub appends: usize,
    pub splits: usize,
    pub merges: usize,
    pub replaced: usize,
    pub most: usize,
    pub leaves: usize,
}

fn raise(number: &mut usize) {
    *number = number.saturating_add(1);
}

// How many leaves are linked, by the nodes of the index.
fn linked<M: Memory>(book: &mut Logbook<Stamp, M>) -> usize {
    let mut count: usize = 0;
    for node in 0..91 {
        let mut record = NodeRecord::new();
        let _ = book.node(node, &mut record);
        if let Holds::Leaves = record.holds {
            count = count.saturating_add(record.numbers.len());
        }
    }
    count
}

impl Tally {
    pub fn new<M: Memory>(book: &mut Logbook<Stamp, M>) -> Tally {
        Tally {
            calls: 0,
            granted: 0,
            steps: 0,
            appends: 0,
            splits: 0,
            merges: 0,
            replaced: 0,
            most: 0,
            leaves: linked(book),
        }
    }

    // Counts one call in, by its answer.
    pub fn count<M: Memory>(&mut self, book: &mut Logbook<Stamp, M>, answer: Result<usize, Halt>) {
        raise(&mut self.calls);
        let Ok(steps) = answer else {
            return;
        };
        raise(&mut self.granted);
        self.steps = self.steps.saturating_add(steps);
        self.most = self.most.max(steps);
        match steps {
            0 => (),
            7 | 12 => raise(&mut self.appends),
            _ => self.rewritten(linked(book)),
        }
    }

    fn rewritten(&mut self, leaves: usize) {
        if leaves > self.leaves {
            raise(&mut self.splits);
        } else if leaves < self.leaves {
            raise(&mut self.merges);
        } else {
            raise(&mut self.replaced);
        }
        self.leaves = leaves;
    }
}
