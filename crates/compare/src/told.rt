// What the logbook and the session tell, as answers.
use crate::answer::{Answer, Holds, Node};
use index::record::{Holds as Held, NodeRecord};
use leaves::leaf::Pair;
use leaves::open::Fault;
use refusal::Refusal;
use session::act::Told;
use tree::logbook::carry::Halt;
use tree::logbook::turn::Removed;

fn refused(refusal: Refusal) -> Answer {
    Answer::Refused {
        number: u64::from(refusal.number()),
    }
}

fn halted(halt: Halt) -> Answer {
    let Halt { refusal, steps } = halt;
    Answer::Halted {
        number: u64::from(refusal.number()),
        steps,
    }
}

fn not_opened(fault: Fault) -> Answer {
    let Fault {
        refusal,
        leaf,
        slot,
    } = fault;
    Answer::NotOpened {
        number: u64::from(refusal.number()),
        leaf,
        slot,
    }
}

fn of_pair(pair: Pair) -> Answer {
    let Pair { key, reading } = pair;
    Answer::Next { key, reading }
}

fn record(record: &NodeRecord) -> Answer {
    let holds = match record.holds {
        Held::Nothing => Holds::Nothing,
        Held::Leaves => Holds::Leaves,
        Held::Children => Holds::Children,
    };
    let mut node = Node::new(holds);
    for number in record.numbers.as_slice() {
        node.number(*number);
    }
    for bound in record.bounds.as_slice() {
        node.bound(*bound);
    }
    Answer::Node { node }
}

pub fn of_format(answer: Result<(), Refusal>) -> Answer {
    match answer {
        Ok(()) => Answer::Granted,
        Err(refusal) => refused(refusal),
    }
}

pub fn of_open(answer: Result<(), Fault>) -> Answer {
    match answer {
        Ok(()) => Answer::Granted,
        Err(fault) => not_opened(fault),
    }
}

pub fn of_cut(answer: Result<Result<(), Fault>, Refusal>) -> Answer {
    match answer {
        Ok(opened) => of_open(opened),
        Err(refusal) => refused(refusal),
    }
}

pub fn of_steps(answer: Result<usize, Halt>) -> Answer {
    match answer {
        Ok(steps) => Answer::Steps { steps },
        Err(halt) => halted(halt),
    }
}

pub fn of_remove(answer: Result<Removed, Halt>) -> Answer {
    match answer {
        Ok(Removed { reading, steps }) => Answer::Removed { reading, steps },
        Err(halt) => halted(halt),
    }
}

pub fn of_find(answer: Result<u64, Refusal>) -> Answer {
    match answer {
        Ok(reading) => Answer::Reading { reading },
        Err(refusal) => refused(refusal),
    }
}

pub fn of_next(answer: Result<Pair, Refusal>) -> Answer {
    match answer {
        Ok(next) => of_pair(next),
        Err(refusal) => refused(refusal),
    }
}

pub fn of_pairs(answer: Result<usize, Refusal>) -> Answer {
    match answer {
        Ok(number) => Answer::Number { number },
        Err(refusal) => refused(refusal),
    }
}

pub fn of_node(answer: Result<(), Refusal>, node: &NodeRecord) -> Answer {
    match answer {
        Ok(()) => record(node),
        Err(refusal) => refused(refusal),
    }
}

pub fn of_act(told: &Told) -> Answer {
    match *told {
        Told::Nothing => Answer::NotPlayed,
        Told::Steps { steps } => Answer::Steps { steps },
        Told::Removed { reading, steps } => Answer::Removed { reading, steps },
        Told::Halted { refusal, steps } => halted(Halt { refusal, steps }),
        Told::Reading { reading } => Answer::Reading { reading },
        Told::Next { pair: next } => of_pair(next),
        Told::Number { number } => Answer::Number { number },
        Told::Node { record: node } => record(&node),
        Told::Refused { refusal } => refused(refusal),
        Told::Opened => Answer::Granted,
        Told::NotOpened { fault } => not_opened(fault),
    }
}
