// What a line of a script asks for.
use layers::chosen::Sort;

#[derive(Clone, Copy)]
pub enum Kind {
    Stamp,
    Port,
}

// The numbers of a key as they are written; they may be no key.
#[derive(Clone, Copy)]
pub enum Fields {
    Stamp { year: u64, day: u64, ms: u64 },
    Port { identity: u64, number: u64 },
}

// A new memory, all words 0.
#[derive(Clone, Copy)]
pub enum Make {
    Through { words: u64 },
    Buffered { words: u64, steps: u64 },
}

// What makes the logbook a new, blank one over the same words.
#[derive(Clone, Copy)]
pub enum Setting {
    Layer(Sort),
    Kind(Kind),
    Anew,
}

// What is done to the memory at the bottom, past the logbook.
#[derive(Clone, Copy)]
pub enum Probing {
    Steps,
    Poke { at: u64, word: u64 },
    Dump,
}

// A call of the logbook.
#[derive(Clone, Copy)]
pub enum Call {
    Format { leaves: u64 },
    Open,
    Put { key: Fields, reading: u64 },
    Change { key: Fields, reading: u64 },
    Remove(Fields),
    Find(Fields),
    Next(Fields),
    Pairs,
    Node { node: u64 },
    State,
}

// Which words keep live at a cut: none, all, or those whose words of the line after `mix`, repeated, are odd.
#[derive(Clone, Copy)]
pub enum Keeps {
    Firm,
    Live,
    Mix,
}

#[derive(Clone, Copy)]
pub enum Line {
    Memory(Make),
    Setting(Setting),
    Probing(Probing),
    Call(Call),
    Cut { steps: u64, keeps: Keeps },
}
