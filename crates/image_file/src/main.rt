//! An image in a file: the words of a script's memory are written, and what the file then holds is told.
#![tactic(auto)]

use inspect::files::{image_to, tell_image};
use std::io;
use std::rt::Runtime;

fn main(rt: HostRuntime) -> io::Result<()> {
    let alloc = rt.alloc();
    image_to(&rt, alloc, "book.image")?;
    tell_image(&rt, alloc, "book.image")
}
