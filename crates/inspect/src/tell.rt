// What an image holds: its head, chain, leaves, index and book, or why it does not open and where.
use super::fault::write_place;
use super::key::write_key;
use super::leaf::write_leaf;
use console::write::{write_answer, write_fault};
use desk::answer::Told;
use desk::book::Book;
use desk::pile::piled;
use index::record::{Holds, NodeRecord};
use keys::Key;
use keys::port::Port;
use keys::stamp::Stamp;
use leaves::leaf::Pair;
use leaves::open::walk::open;
use leaves::open::{Chain, Fault};
use makes::probe::Probe;
use makes::through::Through;
use opened::book::{Opened, read_book};
use opened::parts::part_of;
use opened::picture::{kind_of, words_of};
use opened::place::place_of;
use script::line::{Call, Kind};
use std::alloc::Global;
use std::io::{self, Write};

// The last node of an index.
const LAST_NODE: u64 = 90;

// What opening answers to words, for the kind of key that they are told by.
pub fn open_words(
    alloc: Global,
    words: &mut [u64],
    kind: Kind,
) -> Result<Opened, std::alloc::AllocError> {
    let mut memory = Through::new(words);
    match kind {
        Kind::Stamp => read_book::<Stamp, _>(alloc, &mut memory),
        Kind::Port => read_book::<Port, _>(alloc, &mut memory),
    }
}

fn kind_name(kind: Kind) -> &'static str {
    match kind {
        Kind::Stamp => "stamps",
        Kind::Port => "ports",
    }
}

// The words of the head.
fn write_head<W: Write>(out: &mut W, words: &[u64]) -> io::Result<()> {
    for at in 0..words.len().min(4) {
        let (word, part) = (words[at], part_of(0, at));
        writeln!(out, "    {at:>5}  {word:>20}  {part}")?;
    }
    Ok(())
}

// How many words opening needs: those of two leaves, and those of the leaves that word 3 counts.
fn needed(words: &[u64]) -> u64 {
    if words.len() < 152 {
        return 152;
    }
    words[3].saturating_mul(72).saturating_add(8)
}

fn write_refused<W: Write>(out: &mut W, words: &[u64], fault: Fault) -> io::Result<()> {
    write!(out, "  opening: ")?;
    write_fault(out, &fault)?;
    writeln!(out, "")?;
    match place_of(fault) {
        Some(place) => write_place(out, words, place),
        None => {
            let needed = needed(words);
            writeln!(
                out,
                "  these words are too few: {needed} are needed at least"
            )
        }
    }
}

fn write_chain<W: Write>(out: &mut W, chain: &Chain) -> io::Result<()> {
    write!(out, "  chain:")?;
    for leaf in chain.as_slice() {
        write!(out, " {leaf}")?;
    }
    writeln!(out, "")
}

fn write_leaves<W: Write>(
    out: &mut W,
    words: &mut [u64],
    kind: Kind,
    chain: &Chain,
) -> io::Result<()> {
    let mut memory = Through::new(words);
    for leaf in chain.as_slice() {
        write_leaf(out, kind, &mut memory, *leaf)?;
    }
    Ok(())
}

fn chain_of(words: &mut [u64], kind: Kind) -> Result<Chain, Fault> {
    let mut memory = Through::new(words);
    match kind {
        Kind::Stamp => open::<Stamp, _>(&mut memory),
        Kind::Port => open::<Port, _>(&mut memory),
    }
}

// The used nodes of the index that a logbook builds on the words of a memory.
fn write_nodes<W: Write, B: Probe + Drop>(out: &mut W, memory: B, kind: Kind) -> io::Result<()> {
    let mut book = Book::new(piled(memory, &[]), Some(kind));
    let _ = book.ask(Call::Open);
    for node in 0..=LAST_NODE {
        let answer = book.ask(Call::Node { node });
        if !matches!(
            answer,
            Ok(Told::Node(NodeRecord {
                holds: Holds::Nothing,
                ..
            }))
        ) {
            write!(out, "  node {node}: ")?;
            write_answer(out, 0, &answer)?;
        }
    }
    Ok(())
}

fn write_pairs<W: Write>(out: &mut W, kind: Kind, pairs: &[Pair]) -> io::Result<()> {
    let many = pairs.len();
    writeln!(out, "  book: {many} pairs")?;
    for pair in pairs {
        let reading = pair.reading;
        write!(out, "    ")?;
        write_key(out, kind, pair.key)?;
        writeln!(out, ": {reading}")?;
    }
    Ok(())
}

fn write_words<W: Write>(alloc: Global, words: &mut [u64], out: &mut W) -> io::Result<()> {
    let kind = kind_of(words);
    write_head(out, words)?;
    match chain_of(words, kind) {
        Err(fault) => write_refused(out, words, fault),
        Ok(chain) => {
            let name = kind_name(kind);
            writeln!(out, "  opening: ok, keys are {name}")?;
            write_chain(out, &chain)?;
            write_leaves(out, words, kind, &chain)?;
            write_nodes(out, Through::new(words), kind)?;
            let opened = open_words(alloc, words, kind)?;
            write_pairs(out, kind, opened.pairs.as_slice())
        }
    }
}

// What the image holds.
pub fn inspect<W: Write>(alloc: Global, octets: &[u8], out: &mut W) -> io::Result<()> {
    let many = octets.len();
    match words_of(alloc, octets)? {
        Err(refusal) => writeln!(
            out,
            "image: {many} octets: refused {refusal}, no whole number of words"
        ),
        Ok(mut words) => {
            let size = words.len();
            writeln!(out, "image: {many} octets, {size} words")?;
            write_words(alloc, &mut words, out)
        }
    }
}
