//! Plays lists of calls on a logbook over a through memory, for the measuring of what a call costs: `bench KIND ROUNDS` plays so many
//! rounds, to be counted from outside; `bench` alone tells what the calls read.
#![tactic(auto)]

use calls::{Kind, Totals, round};
use keys::stamp::Stamp;
use makes::through::Through;
use reads::{Reads, measured};
use refusal::Refusal;
use std::{env, io};
use tally::WORDS;
use tree::logbook::Logbook;

mod calls;
mod reads;
mod tally;

fn kind_of(word: &str) -> Option<Kind> {
    match word {
        "put" => Some(Kind::Put),
        "change" => Some(Kind::Change),
        "remove" => Some(Kind::Remove),
        "find" => Some(Kind::Find),
        "next" => Some(Kind::Next),
        _ => None,
    }
}

// So many rounds, one after the other on the same words, and the pairs that are there in the end.
fn play(kind: Kind, rounds: u64) -> Result<(Totals, usize), Refusal> {
    let mut words = [0; WORDS];
    let mut book = Logbook::<Stamp, Through<'_>>::new(Through::new(&mut words));
    let mut totals = Totals::new();
    let mut seed = 1;
    for _ in 0..rounds {
        seed = round(&mut book, kind, seed, &mut totals)?;
    }
    Ok((totals, book.pairs()?))
}

fn show(rt: &impl Print, name: &str, kind: Kind, rounds: u64) -> io::Result<()> {
    match play(kind, rounds) {
        Ok((totals, pairs)) => {
            let Totals {
                granted,
                steps,
                readings,
            } = totals;
            println!(rt;
                "{name}, {rounds} rounds: granted {granted}, steps {steps}, readings {readings}, pairs {pairs}"
            )
        }
        Err(refusal) => println!(rt; "{name}: refused {refusal}"),
    }
}

fn show_reads(rt: &impl Print, sort: &str, reads: &Reads) -> io::Result<()> {
    let Reads {
        calls,
        words,
        leaves,
        of_a_word,
        outside,
    } = *reads;
    println!(rt; "  {sort:<18} {calls:>6} {words:>7} {leaves:>7} {of_a_word:>12} {outside:>10}")
}

fn show_sorts(rt: &impl Print, kind: Kind, append: &str, rewrite: Option<&str>) -> io::Result<()> {
    match measured(kind) {
        Ok(sorts) => {
            show_reads(rt, append, &sorts.append)?;
            match rewrite {
                Some(rewrite) => show_reads(rt, rewrite, &sorts.rewrite),
                None => Ok(()),
            }
        }
        Err(refusal) => println!(rt; "  {append}: refused {refusal}"),
    }
}

// What the calls read, the most of any call of a sort.
fn show_all_reads(rt: &impl Print) -> io::Result<()> {
    println!(rt; "Most that one call read, of calls that were granted:")?;
    println!(rt; "                      calls   words  leaves  of one word  uncounted")?;
    show_sorts(rt, Kind::Put, "put, an append", Some("put, a rewrite"))?;
    show_sorts(
        rt,
        Kind::Change,
        "change, an append",
        Some("change, a rewrite"),
    )?;
    show_sorts(
        rt,
        Kind::Remove,
        "remove, an append",
        Some("remove, a rewrite"),
    )?;
    show_sorts(rt, Kind::Find, "find", None)?;
    show_sorts(rt, Kind::Next, "next", None)?;
    println!(rt; "uncounted: words read that are neither a leaf's own nor in a slot that it counts")
}

fn main(rt: HostRuntime) -> io::Result<()> {
    let mut words = env::args(&rt)?;
    let _program = words.next();
    let name = words.next();
    let rounds = words.next();
    let (Some(name), Some(rounds)) = (name, rounds) else {
        return show_all_reads(&rt);
    };
    match (kind_of(&name), rounds.parse::<u64>()) {
        (Some(kind), Ok(rounds)) => show(&rt, &name, kind, rounds),
        _ => println!(&rt; "bench KIND ROUNDS, or bench alone for what the calls read"),
    }
}
