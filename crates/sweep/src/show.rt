// A sweep told: a row for each cut, and a page on the whole.
use super::failure::Failure;
use super::last::{Last, last_call};
use super::page::{write_head, write_summary};
use super::row::{Row, write_heads, write_row, write_step, write_step_heads};
use super::stop::{Stop, stopped};
use super::tally::Tally;
use super::whole::{Commit, Whole, opens, whole_call};
use opened::book::Opened;
use opened::mixes::{mix_count, mix_run};
use opened::verdict::{is_lawful, judge};
use script::line::Call;
use script::wrong::{Mistake, Wrong};
use std::alloc::Global;
use std::io::{self, Write};

// A sweep of more cuts tells one row for each number of steps, unless all rows are asked for.
const MANY: u64 = 300;

// How a sweep is told: each row where there are many too, and on standard error how far it has come.
#[derive(Clone, Copy)]
pub struct Manner {
    pub all: bool,
    pub progress: bool,
}

// What is swept, and whether each cut is told.
#[derive(Drop)]
struct Sweep<'a> {
    alloc: Global,
    last: Last<'a>,
    whole: &'a Whole,
    each: bool,
    progress: bool,
}

// Whether the commit word stands new by the choices.
fn stands_new(commit: Option<Commit>, stop: &Stop, choice: &[u64]) -> bool {
    let Some(Commit { at, new, .. }) = commit else {
        return false;
    };
    let words = match choice.get(at) {
        Some(keep) if keep % 2 == 1 => &stop.live,
        _ => &stop.firm,
    };
    words.get(at).copied() == Some(new)
}

impl Sweep<'_> {
    // One cut, told and counted.
    fn cut<W: Write>(
        &self,
        out: &mut W,
        stop: &Stop,
        step: u64,
        mix: u64,
    ) -> Result<Tally, Failure> {
        let choice = mix_run(self.alloc, stop.live.as_slice(), stop.firm.as_slice(), mix)?;
        let choice = choice.as_slice();
        let opened: Opened = opens(self.alloc, stop, choice)?;
        let verdict = judge(&opened, &self.whole.before, &self.whole.done);
        let commit_new = stands_new(self.whole.commit, stop, choice);
        if self.each {
            let row = Row {
                step,
                mix,
                commit_new,
                verdict,
                opened: &opened,
            };
            write_row(out, &row, stop, choice)?;
        }
        let format = matches!(self.last.call, Call::Format { .. });
        let lawful = is_lawful(format, commit_new, verdict);
        Ok(Tally::of(verdict, commit_new, lawful))
    }

    // All cuts after so many steps.
    fn step<W: Write>(&self, out: &mut W, step: u64) -> Result<Tally, Failure> {
        let stop = stopped(self.alloc, &self.last, step)?;
        let Some(mixes) = mix_count(stop.live.as_slice(), stop.firm.as_slice()) else {
            return Err(Mistake {
                line: self.last.line,
                wrong: Wrong::TooMixed,
            }
            .into());
        };
        let mut tally = Tally::default();
        for mix in 0..mixes {
            tally = tally.plus(self.cut(out, &stop, step, mix)?);
        }
        if !self.each {
            write_step(out, step, &tally)?;
        }
        Ok(tally)
    }

    fn steps<W: Write>(&self, rt: &impl Eprint, out: &mut W) -> Result<Tally, Failure> {
        let steps = self.whole.steps;
        let mut tally = Tally::default();
        for step in 0..=steps {
            if self.progress {
                eprintln!(rt; "step {step} of {steps}")?;
            }
            tally = tally.plus(self.step(out, step)?);
        }
        Ok(tally)
    }
}

// Sweeps the last call of a script.
fn tell<W: Write>(
    rt: &impl Eprint,
    alloc: Global,
    text: &[u8],
    manner: Manner,
    out: &mut W,
) -> Result<(), Failure> {
    let last = last_call(alloc, text)?;
    let whole = whole_call(alloc, &last)?;
    write_head(out, &last, &whole)?;
    let many = whole.cuts > MANY;
    let each = manner.all || !many;
    if each {
        write_heads(out)?;
    } else {
        write_step_heads(out)?;
    }
    let sweep = Sweep {
        alloc,
        last,
        whole: &whole,
        each,
        progress: manner.progress && many,
    };
    let tally = sweep.steps(rt, out)?;
    write_summary(out, &whole, &tally)?;
    Ok(())
}

// Sweeps the last call of a script, or tells why it cannot.
pub fn show_sweep<W: Write>(
    rt: &impl Eprint,
    alloc: Global,
    text: &[u8],
    manner: Manner,
    out: &mut W,
) -> io::Result<()> {
    match tell(rt, alloc, text, manner, out) {
        Ok(()) => out.flush(),
        Err(Failure::Io(error)) => Err(error),
        Err(Failure::Mistake(mistake)) => {
            writeln!(out, "{mistake}")?;
            out.flush()
        }
    }
}
