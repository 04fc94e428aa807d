// Keys as a script writes them.
use keys::Key;
use keys::port::Port;
use keys::stamp::Stamp;
use script::line::Kind;
use std::io::{self, Write};

fn write_stamp<W: Write>(out: &mut W, words: (u64, u64)) -> io::Result<()> {
    match <Stamp as Key>::unpack(words) {
        Ok(stamp) => {
            let (year, day, ms) = (stamp.year(), stamp.day(), stamp.millisecond());
            write!(out, "{year} {day} {ms}")
        }
        Err(_) => write!(out, "no key"),
    }
}

fn write_port<W: Write>(out: &mut W, words: (u64, u64)) -> io::Result<()> {
    match <Port as Key>::unpack(words) {
        Ok(port) => {
            let (identity, number) = (port.identity(), port.number());
            write!(out, "{identity} {number}")
        }
        Err(_) => write!(out, "no key"),
    }
}

// The key that two words are.
pub fn write_key<W: Write>(out: &mut W, kind: Kind, words: (u64, u64)) -> io::Result<()> {
    match kind {
        Kind::Stamp => write_stamp(out, words),
        Kind::Port => write_port(out, words),
    }
}
