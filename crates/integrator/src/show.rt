// What is printed of a list.
use crate::list::{LEAVES, STEPS, acts};
use crate::play::{WORDS, play_gps};
use own_key::gps::GpsTime;
use session::act::{Act, Told};
use std::io;

pub fn played(rt: &impl Print, kept: &str, choices: &[u64; WORDS]) -> io::Result<()> {
    println!(rt; "")?;
    println!(rt; "The cut keeps the {kept} words")?;
    let Ok(acts) = acts() else {
        return println!(rt; "  no key");
    };
    match play_gps(STEPS, LEAVES, &acts, choices) {
        Ok(told) => {
            for (act, told) in acts.iter().zip(told.iter()) {
                print!(rt; "  ")?;
                show_act(rt, act)?;
                show_told(rt, told)?;
                println!(rt; "")?;
            }
            Ok(())
        }
        Err(refusal) => println!(rt; "  format: refused {refusal}"),
    }
}

fn show_call(rt: &impl Print, call: &str, key: &GpsTime) -> io::Result<()> {
    print!(rt;
        "{call:<7} week {0:>4} second {1:>6}  ",
        key.week(),
        key.second()
    )
}

fn show_act(rt: &impl Print, act: &Act<GpsTime>) -> io::Result<()> {
    match act {
        Act::Put { key, .. } => show_call(rt, "put", key),
        Act::Change { key, .. } => show_call(rt, "change", key),
        Act::Remove { key } => show_call(rt, "remove", key),
        Act::Find { key } => show_call(rt, "find", key),
        Act::Next { key } => show_call(rt, "next", key),
        Act::Pairs => print!(rt; "pairs                            "),
        Act::Node { .. } => print!(rt; "node                             "),
        Act::Cut { .. } => print!(rt; "cut                              "),
    }
}

fn show_told(rt: &impl Print, told: &Told) -> io::Result<()> {
    match told {
        Told::Nothing => print!(rt; "not played"),
        Told::Steps { steps } => print!(rt; "granted, {steps} steps"),
        Told::Removed { reading, steps } => print!(rt; "reading {reading}, {steps} steps"),
        Told::Halted { refusal, steps } => print!(rt; "refused {refusal}, {steps} steps"),
        Told::Reading { reading } => print!(rt; "reading {reading}"),
        Told::Next { pair } => {
            let (week, second) = pair.key;
            let reading = pair.reading;
            print!(rt; "week {week} second {second}, reading {reading}")
        }
        Told::Number { number } => print!(rt; "{number}"),
        Told::Node { record } => print!(rt; "{0} numbers", record.numbers.len()),
        Told::Refused { refusal } => print!(rt; "refused {refusal}"),
        Told::Opened => print!(rt; "opened"),
        Told::NotOpened { fault } => print!(rt; "not opened: refused {0}", fault.refusal),
    }
}
