// The leaves of an image.
use super::key::write_key;
use leaves::leaf::Element;
use leaves::leaf::ask::elements_in;
use memory::Memory;
use script::line::Kind;
use std::io::{self, Write};

// One counted element: its slot, its words and the key that they are.
fn write_element<W: Write>(
    out: &mut W,
    kind: Kind,
    slot: usize,
    element: Element,
) -> io::Result<()> {
    let Element { sign, key, reading } = element;
    let (first, second) = key;
    write!(
        out,
        "    {slot:>4}  {sign:>4}  {first:>20}  {second:>20}  {reading:>20}  "
    )?;
    write_key(out, kind, key)?;
    writeln!(out, "")
}

fn write_elements<W: Write>(out: &mut W, kind: Kind, elements: &[Element]) -> io::Result<()> {
    if elements.is_empty() {
        return Ok(());
    }
    writeln!(
        out,
        "    slot  sign             first word           second word               reading  key"
    )?;
    for (slot, element) in elements.iter().enumerate() {
        write_element(out, kind, slot, *element)?;
    }
    Ok(())
}

// A linked leaf: its words, and its counted elements from the oldest on.
pub fn write_leaf<W: Write, M: Memory>(
    out: &mut W,
    kind: Kind,
    memory: &mut M,
    leaf: usize,
) -> io::Result<()> {
    let start = leaf.saturating_sub(1).saturating_mul(72).saturating_add(8);
    let last = start.saturating_add(71);
    let next = memory.read(start).unwrap_or(0);
    write!(
        out,
        "  leaf {leaf}: words {start} to {last}, next leaf {next}, "
    )?;
    match elements_in(memory, leaf) {
        Ok(elements) => {
            let count = elements.len();
            writeln!(out, "count {count}")?;
            write_elements(out, kind, elements.as_slice())
        }
        Err(refusal) => writeln!(out, "refused {refusal}"),
    }
}
