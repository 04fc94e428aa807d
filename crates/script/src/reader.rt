// The lines of a script, read one after the other.
ghost use Rattle.std.specs.Prelude.{IfOk};
ghost use Rattle.script.specs.Asking.{Asks};

use super::line::Line;
use super::parse;
use super::wrong::Wrong;
use std::alloc::{AllocError, Global};
use std::io::{self, BufRead};
use std::str;

// The lines that are still to be read, and the number of the last one read.
#[derive(Drop)]
pub struct Script<R> {
    reader: R,
    alloc: Global,
    bytes: Vec<u8>,
    number: u64,
}

// What a line's octets ask for; nothing for a blank line and a comment.
fn asked(alloc: Global, bytes: &[u8]) -> Result<Option<Result<Line, Wrong>>, AllocError>
    ensures { IfOk result (Asks bytes.now) }
{
    if bytes.starts_with(b"#") {
        return Ok(None);
    }
    let Ok(text) = str::from_utf8(bytes) else {
        return Ok(Some(Err(Wrong::NotText)));
    };
    let words: Vec<&str> = text.split_whitespace().collect(alloc)?;
    if words.is_empty() {
        return Ok(None);
    }
    Ok(Some(parse::line(words.as_slice())))
}

impl<R: BufRead> Script<R> {
    pub fn new(alloc: Global, reader: R) -> Self {
        Script {
            reader,
            alloc,
            bytes: Vec::new(alloc),
            number: 0,
        }
    }

    // Whether not one octet is left.
    pub fn is_empty(&mut self) -> io::Result<bool> {
        Ok(self.reader.fill_buf()?.is_empty())
    }

    // The number of the last line read, counted from 1.
    pub fn number(&self) -> u64 {
        self.number
    }

    // The words of the last line read from the fourth on, as numbers; 0 for one that is none.
    pub fn mix(&self) -> io::Result<Vec<u64>> {
        let text = str::from_utf8(self.bytes.as_slice()).unwrap_or("");
        let words: Vec<&str> = text.split_whitespace().collect(self.alloc)?;
        let mut mix = vec![in self.alloc; 0; words.len().saturating_sub(3)]?;
        for i in 0..mix.len() {
            if let Some(word) = words.get(i + 3) {
                mix[i] = parse::number(word).unwrap_or(0);
            }
        }
        Ok(mix)
    }

    // Takes one line's octets up; false at the end of the script.
    fn advance(&mut self) -> io::Result<bool> {
        self.bytes.clear();
        let count = self.reader.read_until(b'\n', &mut self.bytes)?;
        self.number = self.number.saturating_add(1);
        Ok(count > 0)
    }

    // What the next line asks for that is neither blank nor a comment, or why it is no call; nothing at the end of the script.
    pub fn next(&mut self) -> io::Result<Option<Result<Line, Wrong>>> {
        for _ in 0..u64::MAX {
            if !self.advance()? {
                break;
            }
            let line = asked(self.alloc, self.bytes.as_slice())?;
            if line.is_some() {
                return Ok(line);
            }
        }
        Ok(None)
    }
}

impl<'a> Script<&'a [u8]> {
    // The octets that are still to be read.
    pub fn left(&self) -> &'a [u8] {
        self.reader
    }
}
