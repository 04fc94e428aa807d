//! A worked example: the logbook with a kind of key and over a make of memory that it does not know.
#![tactic(auto)]

use std::io;

mod list;
mod play;
mod show;

fn main(rt: HostRuntime) -> io::Result<()> {
    println!(&rt; "A logbook of GPS times, over a memory that keeps each word in two copies")?;
    show::played(&rt, "live", &list::KEEPS_LIVE)?;
    show::played(&rt, "firm", &list::KEEPS_FIRM)
}
