// A logbook by the rules: the words of its memory, its state, and the plain book beside it.
use crate::answer::Answer;
use crate::book::{Book, Pair};
use crate::call::{Call, choices_from};
use crate::chain::{Leaf, Tree};
use crate::kinds::{Kind, Words};
use crate::layout::needed;
use crate::opening::{Opening, open_words};
use crate::plan::{Deed, Plan, format_steps, plan_of};
use crate::tally::{Fate, Tally};
use crate::words::{Memory, NO_POWER, OUTSIDE};
use std::alloc::{AllocError, Global};

#[derive(Drop)]
pub enum State {
    Blank,
    Open { tree: Tree },
    Dark,
}

// An unfinished call: the book with it done, and its commit word with the content that it has for it.
#[derive(Drop)]
struct Waiting {
    book: Book,
    at: usize,
    word: u64,
}

// Where this reckoning is at odds with itself.
#[derive(Clone, Copy, PartialEq, Eq)]
pub enum Flaw {
    // the steps taken are not as many as the rules' tables say
    Cost,
    // the book that opens after a cut is not the one that the law of cuts has
    Law,
}

// `lawful`: the book has been followed from a settled memory on, so the law of cuts speaks of it.
#[derive(Drop)]
pub struct Model {
    alloc: Global,
    kind: Kind,
    pub memory: Memory,
    state: State,
    book: Book,
    waiting: Option<Waiting>,
    lawful: bool,
    pub flaw: Option<Flaw>,
}

fn halted(number: u64, steps: usize) -> Answer {
    Answer::Halted { number, steps }
}

impl Model {
    pub fn new(alloc: Global, kind: Kind, memory: Memory) -> Self {
        Model {
            alloc,
            kind,
            memory,
            state: State::Blank,
            book: Book::new(alloc, kind),
            waiting: None,
            lawful: false,
            flaw: None,
        }
    }

    pub fn call(
        &mut self,
        call: &Call,
        choices: &[u64],
        tally: &mut Tally,
    ) -> Result<Answer, AllocError> {
        match *call {
            Call::Format { leaves } => self.format(leaves),
            Call::Open => self.open(),
            Call::Put { key, reading } => self.put(key, reading, tally),
            Call::Change { key, reading } => self.change(key, reading, tally),
            Call::Remove { key } => self.remove(key, tally),
            Call::Find { key } => Ok(self.find(key)),
            Call::Next { key } => Ok(self.next(key)),
            Call::Pairs => Ok(self.pairs()),
            Call::Node { number } => Ok(self.node(number)),
            Call::Cut { from, steps } => self.cut(choices_from(choices, from), steps, tally),
        }
    }

    // The refusal of a logbook that is not open.
    fn closed(&self) -> Option<u64> {
        match &self.state {
            State::Blank => Some(14),
            State::Dark => Some(NO_POWER),
            State::Open { .. } => None,
        }
    }

    fn format(&mut self, leaves: usize) -> Result<Answer, AllocError> {
        if let State::Dark = self.state {
            return Ok(Answer::Refused { number: NO_POWER });
        }
        if !(2..=64).contains(&leaves) {
            return Ok(Answer::Refused { number: 7 });
        }
        if self.memory.size() < needed(leaves) {
            return Ok(Answer::Refused { number: 4 });
        }
        let settled = self.memory.unsettled() == 0;
        let steps = format_steps(self.alloc, self.kind.code(), leaves)?;
        if let (_, Some(number)) = self.memory.take(steps.as_slice()) {
            self.state = State::Dark;
            self.lawful = false;
            return Ok(Answer::Refused { number });
        }
        let first = Leaf {
            number: 1,
            count: 0,
            bound: (0, 0),
        };
        let chain = vec![in self.alloc; first]?;
        let tree = Tree::built(self.alloc, leaves, chain)?;
        self.state = State::Open { tree };
        self.book = Book::new(self.alloc, self.kind);
        self.waiting = None;
        self.lawful = settled;
        Ok(Answer::Granted)
    }

    fn open(&mut self) -> Result<Answer, AllocError> {
        if let State::Dark = self.state {
            return Ok(Answer::NotOpened {
                number: NO_POWER,
                leaf: 0,
                slot: 0,
            });
        }
        match open_words(self.alloc, &self.memory, self.kind)? {
            Opening::Granted { tree, book } => {
                self.state = State::Open { tree };
                self.book = book;
                self.lawful = self.memory.unsettled() == 0;
                Ok(Answer::Granted)
            }
            Opening::Refused { number, leaf, slot } => {
                self.state = State::Blank;
                self.lawful = false;
                Ok(Answer::NotOpened { number, leaf, slot })
            }
        }
    }

    fn put(&mut self, key: Words, reading: u64, tally: &mut Tally) -> Result<Answer, AllocError> {
        if let Some(number) = self.closed() {
            return Ok(halted(number, 0));
        }
        if self.book.find(key).is_some() {
            return Ok(halted(11, 0));
        }
        let after = self.book.with(Pair { key, reading })?;
        self.write(key, &[(1, reading)], after, None, tally)
    }

    fn change(
        &mut self,
        key: Words,
        reading: u64,
        tally: &mut Tally,
    ) -> Result<Answer, AllocError> {
        if let Some(number) = self.closed() {
            return Ok(halted(number, 0));
        }
        let Some(held) = self.book.find(key) else {
            return Ok(halted(12, 0));
        };
        if held == reading {
            return Ok(Answer::Steps { steps: 0 });
        }
        let after = self.book.with(Pair { key, reading })?;
        self.write(key, &[(2, held), (1, reading)], after, None, tally)
    }

    fn remove(&mut self, key: Words, tally: &mut Tally) -> Result<Answer, AllocError> {
        if let Some(number) = self.closed() {
            return Ok(halted(number, 0));
        }
        let Some(held) = self.book.find(key) else {
            return Ok(halted(12, 0));
        };
        let after = self.book.without(key)?;
        self.write(key, &[(2, held)], after, Some(held), tally)
    }

    // What a call writes that has passed the checks of its key.
    fn plan(
        &self,
        key: Words,
        elements: &[(u64, u64)],
        after: &Book,
        removes: bool,
    ) -> Result<Option<Plan>, AllocError> {
        let deed = Deed {
            kind: self.kind,
            key,
            elements,
            after,
            removes,
        };
        match &self.state {
            State::Open { tree } => plan_of(tree, &deed),
            _ => Ok(None),
        }
    }

    // The memory refused a step: a call that lacked power waits.
    fn stop(&mut self, number: u64, after: Book, commit: (usize, u64)) {
        self.state = State::Dark;
        if number == NO_POWER {
            let (at, word) = commit;
            self.waiting = Some(Waiting {
                book: after,
                at,
                word,
            });
        }
    }

    // The rest of a call that has passed the checks of its key.
    fn write(
        &mut self,
        key: Words,
        elements: &[(u64, u64)],
        after: Book,
        removed: Option<u64>,
        tally: &mut Tally,
    ) -> Result<Answer, AllocError> {
        let Some(plan) = self.plan(key, elements, &after, removed.is_some())? else {
            return Ok(halted(13, 0));
        };
        let Plan {
            sort,
            steps,
            cost,
            commit,
            tree,
        } = plan;
        let (steps, refused) = self.memory.take(steps.as_slice());
        if let Some(number) = refused {
            self.stop(number, after, commit);
            return Ok(halted(number, steps));
        }
        if steps != cost {
            self.flaw = Some(Flaw::Cost);
        }
        tally.sort(sort);
        tally.linked = tally.linked.max(tree.chain.len());
        self.book = after;
        self.state = State::Open { tree };
        match removed {
            Some(reading) => Ok(Answer::Removed { reading, steps }),
            None => Ok(Answer::Steps { steps }),
        }
    }

    fn find(&self, key: Words) -> Answer {
        match (self.closed(), self.book.find(key)) {
            (Some(number), _) => Answer::Refused { number },
            (None, Some(reading)) => Answer::Reading { reading },
            (None, None) => Answer::Refused { number: 12 },
        }
    }

    fn next(&self, key: Words) -> Answer {
        match (self.closed(), self.book.next(key)) {
            (Some(number), _) => Answer::Refused { number },
            (None, Some(Pair { key, reading })) => Answer::Next { key, reading },
            (None, None) => Answer::Refused { number: 12 },
        }
    }

    fn pairs(&self) -> Answer {
        match self.closed() {
            Some(number) => Answer::Refused { number },
            None => Answer::Number {
                number: self.book.pairs().len(),
            },
        }
    }

    pub fn node(&self, number: usize) -> Answer {
        match &self.state {
            State::Blank => Answer::Refused { number: 14 },
            State::Dark => Answer::Refused { number: NO_POWER },
            State::Open { .. } if number > 90 => Answer::Refused { number: OUTSIDE },
            State::Open { tree } => Answer::Node {
                node: tree.node(number),
            },
        }
    }

    // The book by the law of cuts, once the memory is settled.
    fn by_law(&mut self, tally: &mut Tally) {
        match self.waiting.take() {
            None => tally.fate(Fate::NoneWaited),
            Some(Waiting { book, at, word }) => {
                if self.memory.read(at) == word {
                    tally.fate(Fate::Made);
                    self.book = book;
                } else {
                    tally.fate(Fate::Dropped);
                }
            }
        }
    }

    fn cut(
        &mut self,
        choices: &[u64],
        steps: u64,
        tally: &mut Tally,
    ) -> Result<Answer, AllocError> {
        let unsettled = self.memory.unsettled();
        if !self.memory.cut(choices, steps) {
            return Ok(Answer::Refused { number: 4 });
        }
        tally.chosen = tally.chosen.saturating_add(unsettled as u64);
        self.by_law(tally);
        let lawful = self.lawful;
        let expected = self.book.copied()?;
        self.state = State::Blank;
        let answer = self.open()?;
        if lawful && (answer != Answer::Granted || !self.book.is_same(&expected)) {
            self.flaw = Some(Flaw::Law);
        }
        Ok(answer)
    }
}
