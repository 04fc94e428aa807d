// Scripts of the program's own: one whose last put splits a leaf, swept, and one whose words are told as an image and damaged.
use console::play::Console;
use inspect::damage::show_damages;
use inspect::tell::inspect;
use std::alloc::Global;
use std::io::{self, BufWriter, Write};
use sweep::show::{Manner, show_sweep};

// 16 corrections fill a leaf, and the next one splits it.
const SPLIT: &str = "
memory buffered 224 1000
kind stamp
format 3
put 2024 1 1 1
put 2024 2 2 2
put 2024 3 3 3
put 2024 4 4 4
put 2024 5 5 5
put 2024 6 6 6
put 2024 7 7 7
put 2024 8 8 8
put 2024 9 9 9
put 2024 10 10 10
put 2024 11 11 11
put 2024 12 12 12
put 2024 13 13 13
put 2024 14 14 14
put 2024 15 15 15
put 2024 16 16 16
put 2024 17 17 17
";

// One correction under two layers, which the image does not show.
const ONE: &str = "
memory buffered 160 100
margin 1
rotation 1
kind stamp
format 2
put 2024 366 0 7
";

// The image of the words that a script's memory shows in the end.
fn image_of(alloc: Global, script: &str) -> io::Result<Vec<u8>> {
    let mut console = Console::new(alloc, script.as_bytes(), io::sink());
    Ok(console.play(true)?.unwrap_or(Vec::new(alloc)))
}

pub fn show<R: Print + Eprint>(rt: &R, alloc: Global) -> io::Result<()> {
    let mut out = BufWriter::new(alloc, io::writer(rt))?;
    writeln!(out, "")?;
    writeln!(
        out,
        "The put that splits a leaf of 16 pairs, cut off after each of its steps"
    )?;
    let manner = Manner {
        all: false,
        progress: false,
    };
    show_sweep(rt, alloc, SPLIT.as_bytes(), manner, &mut out)?;
    writeln!(out, "")?;
    writeln!(out, "A logbook's words as an image")?;
    let octets = image_of(alloc, ONE)?;
    inspect(alloc, octets.as_slice(), &mut out)?;
    writeln!(out, "")?;
    writeln!(
        out,
        "What opening answers where one of these words is another"
    )?;
    show_damages(alloc, octets.as_slice(), &mut out)?;
    out.flush()
}
