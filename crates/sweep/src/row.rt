// The rows of a sweep.
use super::stop::Stop;
use super::tally::Tally;
use console::write::write_fault;
use leaves::leaf::Pair;
use opened::book::Opened;
use opened::verdict::Verdict;
use std::io::{self, Write};

// A book of no more pairs is told pair by pair.
const FEW: usize = 4;

// One cut: after how many steps, which mix, and what it left.
#[derive(Clone, Copy)]
pub struct Row<'a> {
    pub step: u64,
    pub mix: u64,
    pub commit_new: bool,
    pub verdict: Verdict,
    pub opened: &'a Opened,
}

// The refusal, or the number of pairs.
pub fn write_opened<W: Write>(out: &mut W, opened: &Opened) -> io::Result<()> {
    match opened.fault {
        Some(fault) => write_fault(out, &fault),
        None => {
            let pairs = opened.pairs.len();
            write!(out, "pairs {pairs}")
        }
    }
}

// The same, followed by a space at least, as wide as most are.
fn write_wide<W: Write>(out: &mut W, opened: &Opened) -> io::Result<()> {
    match opened.fault {
        Some(fault) => {
            write_fault(out, &fault)?;
            write!(out, " ")
        }
        None => {
            let pairs = opened.pairs.len();
            write!(out, "pairs {pairs:<4}")
        }
    }
}

fn write_pair<W: Write>(out: &mut W, pair: Pair) -> io::Result<()> {
    let Pair { key, reading } = pair;
    let (first, second) = key;
    write!(out, " ({first} {second} {reading})")
}

// The pairs of a small book.
pub fn write_few<W: Write>(out: &mut W, pairs: &[Pair]) -> io::Result<()> {
    if pairs.len() > FEW {
        return Ok(());
    }
    for pair in pairs {
        write_pair(out, *pair)?;
    }
    Ok(())
}

// How each unsettled word stands by the choices.
fn write_words<W: Write>(out: &mut W, stop: &Stop, choice: &[u64]) -> io::Result<()> {
    let firm = stop.firm.as_slice();
    if stop.live.as_slice() == firm {
        return write!(out, " none");
    }
    for (at, new) in stop.live.as_slice().iter().enumerate() {
        if at < firm.len() && at < choice.len() && *new != firm[at] {
            let old = firm[at];
            if choice[at] % 2 == 1 {
                write!(out, " {at}:new={new}")?;
            } else {
                write!(out, " {at}:old={old}")?;
            }
        }
    }
    Ok(())
}

pub fn age(new: bool) -> &'static str {
    if new { "new" } else { "old" }
}

pub fn write_heads<W: Write>(out: &mut W) -> io::Result<()> {
    writeln!(out, "")?;
    writeln!(
        out,
        "  step  mix  commit  book     opening     words that may stand old or new; pairs of a small book"
    )
}

pub fn write_row<W: Write>(
    out: &mut W,
    row: &Row<'_>,
    stop: &Stop,
    choice: &[u64],
) -> io::Result<()> {
    let Row {
        step,
        mix,
        commit_new,
        verdict,
        opened,
    } = row;
    let commit = age(*commit_new);
    let name = verdict.name();
    write!(out, "  {step:>4}  {mix:>3}  {commit}     {name:<7}  ")?;
    write_wide(out, opened)?;
    write_words(out, stop, choice)?;
    write_few(out, opened.pairs.as_slice())?;
    writeln!(out, "")
}

pub fn write_step_heads<W: Write>(out: &mut W) -> io::Result<()> {
    writeln!(out, "")?;
    writeln!(
        out,
        "  step  cuts  commit new  before  done  both  no mark  other"
    )
}

// The cuts after one number of steps.
pub fn write_step<W: Write>(out: &mut W, step: u64, tally: &Tally) -> io::Result<()> {
    let Tally {
        cuts,
        commit_new,
        before,
        done,
        both,
        no_mark,
        other,
        unlawful: _,
    } = *tally;
    writeln!(
        out,
        "  {step:>4}  {cuts:>4}  {commit_new:>10}  {before:>6}  {done:>4}  {both:>4}  {no_mark:>7}  {other:>5}"
    )
}
