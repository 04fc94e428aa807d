// From the words of a line to what the line asks for.
ghost use Rattle.std.specs.Prelude.{IsOk};
ghost use Rattle.std.specs.Result.{OkIff};
ghost use Rattle.script.specs.Forms.{IsNumber, AnyForm, CallForm, CutForm, DeedForm, IsMix, MemoryForm, NamesCall, NamesCut, NamesDeed, NamesMemory, NamesProbing, NamesQuestion, NamesSetting, ProbingForm, QuestionForm, ReadsCall, ReadsCut, ReadsDeed, ReadsMemory, ReadsProbing, ReadsQuestion, ReadsSetting, SettingForm, number_of};
ghost use Rattle.script.specs.declared.line.Fields.TheVariants.{Stamp as StampFields, Port as PortFields};
ghost use Rattle.script.specs.declared.line.Keeps.TheVariants.{Mix};
ghost use Rattle.script.specs.declared.line.Line.TheVariants.{Memory, Setting as SettingLine, Probing as ProbingLine, Call as CallLine};

use super::line::{Call, Fields, Keeps, Kind, Line, Make, Probing, Setting};
use super::wrong::Wrong;
use layers::chosen::Sort;
use std::num::IntErrorKind;

// A number in decimal digits; which error another word gets is left open.
pub fn number(word: &str) -> Result<u64, Wrong>
    ensures { OkIff result (IsNumber word.now) (number_of word.now) }
{
    if let [b'+', ..] = word.as_bytes() {
        return Err(Wrong::NotANumber);
    }
    match word.parse::<u64>() {
        Ok(number) => Ok(number),
        Err(error) => match error.kind() {
            IntErrorKind::PosOverflow => Err(Wrong::TooGreat),
            _ => Err(Wrong::NotANumber),
        },
    }
}

fn memory(words: &[&str]) -> Result<Make, Wrong>
    ensures reads { ReadsMemory words.now result (λ m. m) }
    ensures others { IsOk result → MemoryForm words.now }
{
    match *words {
        ["memory", "through", words] => Ok(Make::Through {
            words: number(words)?,
        }),
        ["memory", "buffered", words, steps] => Ok(Make::Buffered {
            words: number(words)?,
            steps: number(steps)?,
        }),
        _ => Err(Wrong::MemoryForm),
    }
}

fn setting(words: &[&str]) -> Result<Setting, Wrong>
    ensures reads { ReadsSetting words.now result (λ s. s) }
    ensures others { IsOk result → SettingForm words.now }
{
    match *words {
        ["margin", lines] => Ok(Setting::Layer(Sort::Hides(number(lines)? as usize))),
        ["rotation", lines] => Ok(Setting::Layer(Sort::Turns(number(lines)? as usize))),
        ["kind", "stamp"] => Ok(Setting::Kind(Kind::Stamp)),
        ["kind", "port"] => Ok(Setting::Kind(Kind::Port)),
        ["make"] => Ok(Setting::Anew),
        _ => Err(Wrong::SettingForm),
    }
}

fn probing(words: &[&str]) -> Result<Probing, Wrong>
    ensures reads { ReadsProbing words.now result (λ p. p) }
    ensures others { IsOk result → ProbingForm words.now }
{
    match *words {
        ["steps"] => Ok(Probing::Steps),
        ["poke", at, word] => Ok(Probing::Poke {
            at: number(at)?,
            word: number(word)?,
        }),
        ["dump"] => Ok(Probing::Dump),
        _ => Err(Wrong::ProbingForm),
    }
}

// The three numbers of a stamp, and the two of a port.
fn stamp(year: &str, day: &str, ms: &str) -> Result<Fields, Wrong>
    ensures { OkIff result (IsNumber year.now × IsNumber day.now × IsNumber ms.now) (StampFields (number_of year.now) (number_of day.now) (number_of ms.now)) }
{
    Ok(Fields::Stamp {
        year: number(year)?,
        day: number(day)?,
        ms: number(ms)?,
    })
}

fn port(identity: &str, port: &str) -> Result<Fields, Wrong>
    ensures { OkIff result (IsNumber identity.now × IsNumber port.now) (PortFields (number_of identity.now) (number_of port.now)) }
{
    Ok(Fields::Port {
        identity: number(identity)?,
        number: number(port)?,
    })
}

// A call that changes the book.
fn deed(words: &[&str]) -> Result<Call, Wrong>
    ensures reads { ReadsDeed words.now result (λ c. c) }
    ensures others { IsOk result → DeedForm words.now }
{
    match *words {
        ["put", year, day, ms, reading] => Ok(Call::Put {
            key: stamp(year, day, ms)?,
            reading: number(reading)?,
        }),
        ["put", identity, port_number, reading] => Ok(Call::Put {
            key: port(identity, port_number)?,
            reading: number(reading)?,
        }),
        ["change", year, day, ms, reading] => Ok(Call::Change {
            key: stamp(year, day, ms)?,
            reading: number(reading)?,
        }),
        ["change", identity, port_number, reading] => Ok(Call::Change {
            key: port(identity, port_number)?,
            reading: number(reading)?,
        }),
        ["remove", year, day, ms] => Ok(Call::Remove(stamp(year, day, ms)?)),
        ["remove", identity, number] => Ok(Call::Remove(port(identity, number)?)),
        _ => Err(Wrong::KeyForm),
    }
}

// The words after `mix`, all of them numbers.
fn mix(words: &[&str]) -> Result<Keeps, Wrong>
    ensures { OkIff result (IsMix words.now) Mix }
{
    for i in 3..words.len() {
        number(words[i])?;
    }
    Ok(Keeps::Mix)
}

fn cut(words: &[&str]) -> Result<Line, Wrong>
    ensures reads { ReadsCut words.now result }
    ensures others { IsOk result → CutForm words.now }
{
    match *words {
        ["cut", left, "firm"] => Ok(Line::Cut {
            steps: number(left)?,
            keeps: Keeps::Firm,
        }),
        ["cut", left, "live"] => Ok(Line::Cut {
            steps: number(left)?,
            keeps: Keeps::Live,
        }),
        ["cut", left, "mix", _, ..] => Ok(Line::Cut {
            steps: number(left)?,
            keeps: mix(words)?,
        }),
        _ => Err(Wrong::CutForm),
    }
}

// A call that asks the book for a key.
fn question(words: &[&str]) -> Result<Call, Wrong>
    ensures reads { ReadsQuestion words.now result (λ c. c) }
    ensures others { IsOk result → QuestionForm words.now }
{
    match *words {
        ["find", year, day, ms] => Ok(Call::Find(stamp(year, day, ms)?)),
        ["find", identity, number] => Ok(Call::Find(port(identity, number)?)),
        ["next", year, day, ms] => Ok(Call::Next(stamp(year, day, ms)?)),
        ["next", identity, number] => Ok(Call::Next(port(identity, number)?)),
        _ => Err(Wrong::KeyForm),
    }
}

// Any other call.
fn call(words: &[&str]) -> Result<Call, Wrong>
    ensures reads { ReadsCall words.now result (λ c. c) }
    ensures others { IsOk result → CallForm words.now }
{
    match *words {
        ["format", leaves] => Ok(Call::Format {
            leaves: number(leaves)?,
        }),
        ["open"] => Ok(Call::Open),
        ["pairs"] => Ok(Call::Pairs),
        ["node", node] => Ok(Call::Node {
            node: number(node)?,
        }),
        ["state"] => Ok(Call::State),
        ["format" | "open" | "pairs" | "node" | "state", ..] => Err(Wrong::CallForm),
        _ => Err(Wrong::NoCall),
    }
}

// What the words of a line ask for, by the name that they begin with, if they are of one of its forms.
pub fn line(words: &[&str]) -> Result<Line, Wrong>
    ensures memory { NamesMemory words.now → ReadsMemory words.now result Memory }
    ensures setting { NamesSetting words.now → ReadsSetting words.now result SettingLine }
    ensures probing { NamesProbing words.now → ReadsProbing words.now result ProbingLine }
    ensures deed { NamesDeed words.now → ReadsDeed words.now result CallLine }
    ensures question { NamesQuestion words.now → ReadsQuestion words.now result CallLine }
    ensures call { NamesCall words.now → ReadsCall words.now result CallLine }
    ensures cut { NamesCut words.now → ReadsCut words.now result }
    ensures others { IsOk result → AnyForm words.now }
{
    match *words {
        ["memory", ..] => Ok(Line::Memory(memory(words)?)),
        ["margin" | "rotation" | "kind" | "make", ..] => Ok(Line::Setting(setting(words)?)),
        ["steps" | "poke" | "dump", ..] => Ok(Line::Probing(probing(words)?)),
        ["put" | "change" | "remove", ..] => Ok(Line::Call(deed(words)?)),
        ["find" | "next", ..] => Ok(Line::Call(question(words)?)),
        ["cut", ..] => cut(words),
        _ => Ok(Line::Call(call(words)?)),
    }
}
