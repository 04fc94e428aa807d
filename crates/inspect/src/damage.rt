// A good image with each of its words damaged in turn, and what opening answers.
use super::tally::Tally;
use super::tell::open_words;
use console::write::write_fault;
use fixed_vec::FixedVec;
use opened::book::Opened;
use opened::outcome::{Outcome, outcome_of};
use opened::parts::part_of;
use opened::picture::{kind_of, words_of};
use script::line::Kind;
use std::alloc::{AllocError, Global};
use std::io::{self, Write};

// Contents that a word is given in place of its own, and what opening answers to each.
type Contents = FixedVec<u64, 6>;

type Answers = FixedVec<(u64, Outcome), 6>;

// 0, 1, 2, 3, the word and 1 more, and the largest word, without the word itself and without one that stands twice.
fn contents(word: u64) -> Contents {
    let mut contents = Contents::new(0);
    for content in [0, 1, 2, 3, word.wrapping_add(1), u64::MAX] {
        if content != word && !contents.as_slice().contains(&content) {
            let _ = contents.push(content);
        }
    }
    contents
}

// The image under damage, and the words from the last one told on, on which nothing rests.
#[derive(Drop)]
struct Damage<'a> {
    alloc: Global,
    words: &'a mut [u64],
    kind: Kind,
    good: &'a Opened,
    leaves: usize,
    told: usize,
    tally: Tally,
}

impl Damage<'_> {
    // What opening answers with one word changed; it stands as before afterwards.
    fn outcome(&mut self, at: usize, content: u64) -> Result<Outcome, AllocError> {
        if at >= self.words.len() {
            return Ok(Outcome::SameBook);
        }
        let own = self.words[at];
        self.words[at] = content;
        let opened = open_words(self.alloc, self.words, self.kind)?;
        if at < self.words.len() {
            self.words[at] = own;
        }
        let outcome = outcome_of(&opened, self.good);
        self.tally.add(outcome);
        Ok(outcome)
    }

    fn answers(&mut self, at: usize, contents: &Contents) -> Result<Answers, AllocError> {
        let mut answers = Answers::new((0, Outcome::SameBook));
        for content in contents.as_slice() {
            let outcome = self.outcome(at, *content)?;
            let _ = answers.push((*content, outcome));
        }
        Ok(answers)
    }

    // The words since the last one told, up to this one.
    fn write_folded<W: Write>(&self, out: &mut W, at: usize) -> io::Result<()> {
        let first = self.told;
        if first >= at {
            return Ok(());
        }
        let last = at - 1;
        writeln!(out, "  words {first} to {last}: the same book")
    }

    // One word: its answers, where there is another than the same book.
    fn word<W: Write>(&mut self, out: &mut W, at: usize) -> io::Result<()> {
        let word = self.words.get(at).copied().unwrap_or(0);
        let contents = contents(word);
        let answers = self.answers(at, &contents)?;
        let answers = answers.as_slice();
        if answers
            .iter()
            .all(|(_, outcome)| *outcome == Outcome::SameBook)
        {
            return Ok(());
        }
        self.write_folded(out, at)?;
        self.told = at.saturating_add(1);
        let part = part_of(self.leaves, at);
        write!(out, "  word {at}, {word}, {part}:")?;
        write_answers(out, answers)
    }

    fn words<W: Write>(&mut self, out: &mut W) -> io::Result<()> {
        let size = self.words.len();
        for at in 0..size {
            self.word(out, at)?;
        }
        self.write_folded(out, size)
    }
}

fn write_outcome<W: Write>(out: &mut W, outcome: Outcome) -> io::Result<()> {
    match outcome {
        Outcome::SameBook => write!(out, "same book"),
        Outcome::OtherBook(pairs) => write!(out, "another book, pairs {pairs}"),
        Outcome::Refused(fault) => write_fault(out, &fault),
    }
}

// The contents that have this outcome.
fn write_contents<W: Write>(
    out: &mut W,
    answers: &[(u64, Outcome)],
    outcome: Outcome,
) -> io::Result<()> {
    for (content, own) in answers {
        if *own == outcome {
            write!(out, " {content}")?;
        }
    }
    Ok(())
}

// Whether an earlier content has this outcome.
fn is_told(answers: &[(u64, Outcome)], outcome: Outcome) -> bool {
    answers.iter().any(|(_, own)| *own == outcome)
}

// Each outcome once, with the contents that have it.
fn write_answers<W: Write>(out: &mut W, answers: &[(u64, Outcome)]) -> io::Result<()> {
    for (i, (_, outcome)) in answers.iter().enumerate() {
        if !is_told(&answers[..i], *outcome) {
            write_contents(out, answers, *outcome)?;
            write!(out, ": ")?;
            write_outcome(out, *outcome)?;
            write!(out, ";")?;
        }
    }
    writeln!(out, "")
}

// The damages of a good image.
fn write_damages<W: Write>(
    alloc: Global,
    words: &mut [u64],
    good: &Opened,
    out: &mut W,
) -> io::Result<()> {
    let leaves = words.get(3).copied().unwrap_or(0) as usize;
    let mut damage = Damage {
        alloc,
        kind: kind_of(words),
        words,
        good,
        leaves,
        told: 0,
        tally: Tally::default(),
    };
    damage.words(out)?;
    damage.tally.write(out)
}

// What opening answers to each damage of an image, which has to be good itself.
pub fn show_damages<W: Write>(alloc: Global, octets: &[u8], out: &mut W) -> io::Result<()> {
    let mut words = match words_of(alloc, octets)? {
        Err(refusal) => return writeln!(out, "image: refused {refusal}"),
        Ok(words) => words,
    };
    let kind = kind_of(&words);
    let good = open_words(alloc, &mut words, kind)?;
    match good.fault {
        Some(fault) => {
            write!(out, "image: ")?;
            write_fault(out, &fault)?;
            writeln!(out, "")
        }
        None => write_damages(alloc, &mut words, &good, out),
    }
}
