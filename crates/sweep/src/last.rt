// The last call of a script, which is the one that is swept.
use super::failure::Failure;
use script::line::{Call, Line};
use script::reader::Script;
use script::wrong::{Mistake, Wrong};
use std::alloc::Global;

// The script before its last line, the number of that line, and what it calls.
#[derive(Clone, Copy)]
pub struct Last<'a> {
    pub before: &'a [u8],
    pub line: u64,
    pub call: Call,
}

// A line as it is found: the octets before it, its number, and what it asks for.
type Found<'a> = (&'a [u8], u64, Result<Line, Wrong>);

// The call that a line asks for, if it is one that stores.
fn deed(line: Line) -> Result<Call, Wrong> {
    match line {
        Line::Call(call) => match call {
            Call::Format { .. } | Call::Put { .. } | Call::Change { .. } | Call::Remove(_) => Ok(
                call,
            ),
            _ => Err(Wrong::NotSwept),
        },
        _ => Err(Wrong::NotSwept),
    }
}

// The octets of a text before its last ones, of which there are so many.
fn before(text: &[u8], left: usize) -> &[u8] {
    &text[..text.len().saturating_sub(left)]
}

// The last line that is neither blank nor a comment; the first line where there is none.
fn last_line(alloc: Global, text: &[u8]) -> Result<Found<'_>, Failure> {
    let mut script = Script::new(alloc, text);
    let mut found = (text, 1, Err(Wrong::NotSwept));
    for _ in 0..u64::MAX {
        let left = script.left().len();
        match script.next()? {
            None => break,
            Some(line) => found = (before(text, left), script.number(), line),
        }
    }
    Ok(found)
}

// The last call of a script, if it is one that stores.
pub fn last_call(alloc: Global, text: &[u8]) -> Result<Last<'_>, Failure> {
    let (before, line, asked) = last_line(alloc, text)?;
    match asked.and_then(deed) {
        Ok(call) => Ok(Last { before, line, call }),
        Err(wrong) => Err(Mistake { line, wrong }.into()),
    }
}
