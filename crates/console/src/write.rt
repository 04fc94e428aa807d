// How an answer is written.
use desk::answer::{Standing, Told, Trouble};
use index::record::{Holds, NodeRecord};
use leaves::open::Fault;
use refusal::Refusal;
use std::io::{self, Write};
use tree::logbook::carry::Halt;
use tree::logbook::turn::Removed;

pub fn write_answer<W: Write>(
    out: &mut W,
    line: u64,
    answer: &Result<Told, Trouble>,
) -> io::Result<()> {
    match answer {
        Ok(told) => write_told(out, told),
        Err(Trouble::Refused(fault)) => write_refused(out, fault),
        Err(Trouble::Halted(halt)) => write_halted(out, halt),
        Err(Trouble::Wrong(wrong)) => writeln!(out, "error line {line}: {wrong}"),
    }
}

fn write_told<W: Write>(out: &mut W, told: &Told) -> io::Result<()> {
    match told {
        Told::Nothing => writeln!(out, "ok"),
        Told::Number(number) => writeln!(out, "ok {number}"),
        Told::Steps(steps) => writeln!(out, "ok steps {steps}"),
        Told::Removed(removed) => {
            let Removed { reading, steps } = *removed;
            writeln!(out, "ok reading {reading} steps {steps}")
        }
        Told::Endless => writeln!(out, "ok endless"),
        Told::State(Standing::Blank) => writeln!(out, "ok blank"),
        Told::State(Standing::Open) => writeln!(out, "ok open"),
        Told::State(Standing::Dark) => writeln!(out, "ok dark"),
        Told::Pair(pair) => {
            let (first, second) = pair.key;
            let reading = pair.reading;
            writeln!(out, "ok {first} {second} {reading}")
        }
        Told::Node(record) => write_node(out, record),
    }
}

// A refusal without the end of its line: with a bad link stands its leaf, with a bad leaf its number and the slot.
pub fn write_fault<W: Write>(out: &mut W, fault: &Fault) -> io::Result<()> {
    let Fault {
        refusal,
        leaf,
        slot,
    } = *fault;
    match refusal {
        Refusal::BadLink => write!(out, "refused {refusal} {leaf}"),
        Refusal::BadLeaf => write!(out, "refused {refusal} {leaf} {slot}"),
        _ => write!(out, "refused {refusal}"),
    }
}

fn write_refused<W: Write>(out: &mut W, fault: &Fault) -> io::Result<()> {
    write_fault(out, fault)?;
    writeln!(out, "")
}

// Where the memory or a dark logbook refused, the steps are told.
fn write_halted<W: Write>(out: &mut W, halt: &Halt) -> io::Result<()> {
    let Halt { refusal, steps } = *halt;
    match refusal {
        Refusal::NoPower | Refusal::Unsettled => writeln!(out, "refused {refusal} steps {steps}"),
        _ => writeln!(out, "refused {refusal}"),
    }
}

fn write_node<W: Write>(out: &mut W, record: &NodeRecord) -> io::Result<()> {
    match record.holds {
        Holds::Nothing => return writeln!(out, "ok none"),
        Holds::Leaves => write!(out, "ok leaves")?,
        Holds::Children => write!(out, "ok children")?,
    }
    for number in record.numbers.as_slice() {
        write!(out, " {number}")?;
    }
    write_bounds(out, record.bounds.as_slice())
}

fn write_bounds<W: Write>(out: &mut W, bounds: &[(u64, u64)]) -> io::Result<()> {
    write!(out, " bounds")?;
    for bound in bounds {
        let (first, second) = *bound;
        write!(out, " {first} {second}")?;
    }
    writeln!(out, "")
}

// The words that are not 0, each with its index.
fn write_words<W: Write>(out: &mut W, words: &[u64]) -> io::Result<()> {
    for (at, word) in words.iter().enumerate() {
        if *word != 0 {
            write!(out, " {at}:{word}")?;
        }
    }
    Ok(())
}

pub fn write_dump<W: Write>(out: &mut W, live: &[u64], firm: &[u64]) -> io::Result<()> {
    write!(out, "ok live")?;
    write_words(out, live)?;
    write!(out, " firm")?;
    write_words(out, firm)?;
    writeln!(out, "")
}
