// The place of a fault, told in the words around it.
use opened::parts::part_of;
use opened::place::Place;
use std::io::{self, Write};

// How many words before and after the place are told with it.
const AROUND: usize = 3;

fn write_word<W: Write>(
    out: &mut W,
    leaves: usize,
    at: usize,
    word: u64,
    marked: bool,
) -> io::Result<()> {
    let part = part_of(leaves, at);
    let mark = if marked { ">" } else { " " };
    writeln!(out, "  {mark} {at:>5}  {word:>20}  {part}")
}

// The place marked in the words around it.
pub fn write_place<W: Write>(out: &mut W, words: &[u64], place: Place) -> io::Result<()> {
    let leaves = words.get(3).copied().unwrap_or(0) as usize;
    let Place { first, many } = place;
    let start = first.saturating_sub(AROUND);
    let end = first.saturating_add(many);
    for at in start..end.saturating_add(AROUND) {
        if let Some(word) = words.get(at) {
            write_word(out, leaves, at, *word, first <= at && at < end)?;
        }
    }
    Ok(())
}
