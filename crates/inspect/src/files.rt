// Images in files: the words of a script's memory written as one, and one that is told or damaged.
use super::damage::show_damages;
use super::tell::inspect;
use console::play::Console;
use std::alloc::Global;
use std::fs;
use std::io::{self, BufReader, BufWriter, Write};
use std::rt::Runtime;

// Plays the script, and writes the image of the words that are shown in the end.
pub fn image_to(rt: &HostRuntime, alloc: Global, path: &str) -> io::Result<()> {
    let reader = BufReader::new(alloc, rt.reader())?;
    let out = BufWriter::new(alloc, io::writer(rt))?;
    let mut console = Console::new(alloc, reader, out);
    match console.play(true)? {
        Some(octets) => fs::write(rt, path, octets.as_slice()),
        None => Ok(()),
    }
}

// Tells what the image in a file holds.
pub fn tell_image(rt: &HostRuntime, alloc: Global, path: &str) -> io::Result<()> {
    let octets = fs::read(rt, path)?;
    let mut out = BufWriter::new(alloc, io::writer(rt))?;
    inspect(alloc, octets.as_slice(), &mut out)?;
    out.flush()
}

// Tells what opening answers to each damage of the image in a file.
pub fn tell_damages(rt: &HostRuntime, alloc: Global, path: &str) -> io::Result<()> {
    let octets = fs::read(rt, path)?;
    let mut out = BufWriter::new(alloc, io::writer(rt))?;
    show_damages(alloc, octets.as_slice(), &mut out)?;
    out.flush()
}
