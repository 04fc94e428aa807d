// What is told of a sweep before its rows and after them.
use super::last::Last;
use super::row::{write_few, write_opened};
use super::tally::Tally;
use super::whole::Whole;
use console::write::write_answer;
use opened::book::Opened;
use script::line::{Call, Fields};
use std::io::{self, Write};

fn write_key<W: Write>(out: &mut W, key: Fields) -> io::Result<()> {
    match key {
        Fields::Stamp { year, day, ms } => write!(out, "{year} {day} {ms}"),
        Fields::Port { identity, number } => write!(out, "{identity} {number}"),
    }
}

fn write_call<W: Write>(out: &mut W, call: Call) -> io::Result<()> {
    match call {
        Call::Put { key, reading } => {
            write!(out, "put ")?;
            write_key(out, key)?;
            write!(out, " {reading}")
        }
        Call::Change { key, reading } => {
            write!(out, "change ")?;
            write_key(out, key)?;
            write!(out, " {reading}")
        }
        Call::Remove(key) => {
            write!(out, "remove ")?;
            write_key(out, key)
        }
        Call::Format { leaves } => write!(out, "format {leaves}"),
        _ => Ok(()),
    }
}

fn write_book<W: Write>(out: &mut W, name: &str, opened: &Opened) -> io::Result<()> {
    write!(out, "  {name} ")?;
    write_opened(out, opened)?;
    write_few(out, opened.pairs.as_slice())?;
    writeln!(out, "")
}

// The call, its answer with plenty of steps, its commit word, and the two books.
pub fn write_head<W: Write>(out: &mut W, last: &Last<'_>, whole: &Whole) -> io::Result<()> {
    let line = last.line;
    write!(out, "sweep of line {line}: ")?;
    write_call(out, last.call)?;
    writeln!(out, "")?;
    write!(out, "  the call, whole:    ")?;
    write_answer(out, line, &whole.told)?;
    let steps = whole.steps;
    writeln!(out, "  its steps:          {steps}")?;
    if let Some(commit) = whole.commit {
        let (at, old, new) = (commit.at, commit.old, commit.new);
        writeln!(out, "  its commit word:    {at}, old {old}, new {new}")?;
    }
    write_book(out, "book before:       ", &whole.before)?;
    write_book(out, "book with it done: ", &whole.done)
}

// The sums of all rows.
pub fn write_summary<W: Write>(out: &mut W, whole: &Whole, tally: &Tally) -> io::Result<()> {
    let Tally {
        cuts,
        commit_new,
        before,
        done,
        both,
        no_mark,
        other,
        unlawful,
    } = *tally;
    let stops = whole.steps.saturating_add(1);
    writeln!(out, "")?;
    writeln!(out, "  summary")?;
    writeln!(
        out,
        "  numbers of steps after which it was cut off  {stops:>6}"
    )?;
    writeln!(
        out,
        "  cuts, one for each mix of old and new words  {cuts:>6}"
    )?;
    writeln!(
        out,
        "    with the commit word new                   {commit_new:>6}"
    )?;
    writeln!(
        out,
        "  books as before                              {before:>6}"
    )?;
    writeln!(
        out,
        "  books with the call done                     {done:>6}"
    )?;
    writeln!(
        out,
        "  books where the call changes none            {both:>6}"
    )?;
    writeln!(
        out,
        "  no mark, inside a format                     {no_mark:>6}"
    )?;
    writeln!(
        out,
        "  anything else                                {other:>6}"
    )?;
    writeln!(
        out,
        "  against the rules                            {unlawful:>6}"
    )
}
