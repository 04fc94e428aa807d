//! The program: plays a script from standard input, or without one its own task from beginning to end, as tables that a person can read.
//! Its arguments name other tasks: a sweep of a script's last call, and images of memories written, told and damaged.
#![tactic(auto)]

use console::play::Console;
use inspect::files::{image_to, tell_damages, tell_image};
use script::args::{Task, task_of};
use std::alloc::Global;
use std::env;
use std::io::{self, BufReader, BufWriter, Read, Write};
use std::rt::Runtime;
use sweep::show::{Manner, show_sweep};

mod correction;
mod cuts;
mod damage;
mod dates;
mod given;
mod season;

fn show_task(rt: &HostRuntime, alloc: Global) -> io::Result<()> {
    println!(rt; "Vervainstair: clock corrections in persistent memory")?;
    dates::show(rt)?;
    correction::show(rt)?;
    damage::show(rt)?;
    season::show(rt)?;
    cuts::show(rt)?;
    given::show(rt, alloc)
}

fn play(rt: &HostRuntime, alloc: Global) -> io::Result<()> {
    let reader = BufReader::new(alloc, rt.reader())?;
    let out = BufWriter::new(alloc, io::writer(rt))?;
    let mut console = Console::new(alloc, reader, out);
    if console.script.is_empty()? {
        return show_task(rt, alloc);
    }
    let _ = console.play(false)?;
    Ok(())
}

fn play_sweep(rt: &HostRuntime, alloc: Global, all: bool) -> io::Result<()> {
    let mut text = Vec::new(alloc);
    rt.reader().read_to_end(&mut text)?;
    let mut out = BufWriter::new(alloc, io::writer(rt))?;
    let manner = Manner {
        all,
        progress: true,
    };
    show_sweep(rt, alloc, text.as_slice(), manner, &mut out)
}

fn main(rt: HostRuntime) -> io::Result<()> {
    let alloc = rt.alloc();
    let mut given = env::args(&rt)?;
    let _program = given.next();
    let given: Vec<String> = given.collect(alloc)?;
    let words: Vec<&str> = given.iter().map(|word| word.as_str()).collect(alloc)?;
    let file = words.get(1).copied().unwrap_or("");
    match task_of(words.as_slice()) {
        Some(Task::Play) => play(&rt, alloc),
        Some(Task::Sweep) => play_sweep(&rt, alloc, false),
        Some(Task::SweepAll) => play_sweep(&rt, alloc, true),
        Some(Task::Image) => image_to(&rt, alloc, file),
        Some(Task::Inspect) => tell_image(&rt, alloc, file),
        Some(Task::Damage) => tell_damages(&rt, alloc, file),
        None => println!(&rt;
            "vervainstair, or with one of: sweep, sweep all, image FILE, inspect FILE, damage FILE"
        ),
    }
}
