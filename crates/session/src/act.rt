// What is asked of a logbook in a list, and what it tells.
use index::record::NodeRecord;
use leaves::leaf::Pair;
use leaves::open::Fault;
use refusal::Refusal;

// A call, or a cut of the supply: its choice run is the choices from word `from` on, and its steps are those left afterwards.
#[derive(Clone, Copy)]
pub enum Act<K> {
    Put { key: K, reading: u64 },
    Change { key: K, reading: u64 },
    Remove { key: K },
    Find { key: K },
    Next { key: K },
    Pairs,
    Node { number: usize },
    Cut { from: usize, steps: u64 },
}

// The answer: the steps of a put or change; the reading and steps of a remove; a refusal of these, with its steps; what a question
// tells, or its refusal; that a cut's logbook opened, or why it did not, or the refusal of a cut whose choice run is too short.
#[derive(Clone, Copy)]
pub enum Told {
    Nothing,
    Steps { steps: usize },
    Removed { reading: u64, steps: usize },
    Halted { refusal: Refusal, steps: usize },
    Reading { reading: u64 },
    Next { pair: Pair },
    Number { number: usize },
    Node { record: NodeRecord },
    Refused { refusal: Refusal },
    Opened,
    NotOpened { fault: Fault },
}
