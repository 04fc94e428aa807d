// The logbook that a script calls, for the kind of key that it has named.
ghost use Rattle.std.specs.Prelude.{◌≡◌, ◌*◌, ◌^◌, ◌<◌, IfOk, Result};
ghost use Rattle.image.specs.Image.{image};
ghost use Rattle.memory.specs.Meaning.{size_of};
ghost use Rattle.desk.specs.Piles.{pile_words};
ghost use Rattle.keys.specs.InWords.{in_words};
ghost use Rattle.tree.specs.Shape.{shape_of};
ghost use Rattle.tree.specs.Sound.{Sound};
ghost use Rattle.desk.specs.Answering.{Answers, called_shape, port_written, stamp_written, words_after};
ghost use Rattle.desk.specs.Books.{BookAnswers, BookLeaves, BookStands, IsNew, IsSound, kind_of, pile_of};
ghost use Rattle.desk.specs.declared.answer.Trouble.{Trouble};
ghost use Rattle.script.specs.declared.line.Fields.{Fields};

use super::answer::{Standing, Told, Trouble};
use super::pile::{Pile, bottom, bottom_mut};
use index::record::NodeRecord;
use keys::Key;
use keys::port::Port;
use keys::stamp::Stamp;
use makes::probe::Probe;
use memory::Memory;
use opened::picture::octets_of;
use script::line::{Call, Fields, Kind};
use script::wrong::Wrong;
use std::alloc::{AllocError, Global};
use tree::logbook::{Logbook, State};

// The pile alone where no kind is named yet.
#[derive(Drop)]
pub enum Book<B> {
    Unkind(Pile<B>),
    Stamps(Logbook<Stamp, Pile<B>>),
    Ports(Logbook<Port, Pile<B>>),
}

// A kind of key that a script can write.
trait Written: Key {
    ghost reads: { Fields → Result Self Trouble };

    // The key that fields write, or the trouble with them.
    fn written(fields: Fields) -> Result<Self, Trouble>
        ensures { result ≡ reads fields };
}

impl Written for Stamp {
    ghost reads = { stamp_written };

    fn written(fields: Fields) -> Result<Stamp, Trouble> {
        match fields {
            Fields::Stamp { year, day, ms } => Ok(Stamp::new(year, day, ms)?),
            Fields::Port { .. } => Err(Wrong::OtherKind.into()),
        }
    }
}

impl Written for Port {
    ghost reads = { port_written };

    fn written(fields: Fields) -> Result<Port, Trouble> {
        match fields {
            Fields::Port { identity, number } => Ok(Port::new(identity, number)?),
            Fields::Stamp { .. } => Err(Wrong::OtherKind.into()),
        }
    }
}

// The answer of a logbook to one call.
fn ask<K: Written, M: Memory>(book: &mut Logbook<K, M>, call: Call) -> Result<Told, Trouble>
    ensures answer { Sound (in_words K.Key.kind) (M.Memory.meaning book.old.memory).live book.old.state → Answers K.Key.kind K.Written.reads (M.Memory.meaning book.old.memory) book.old.state book.old.taken result call }
    ensures words { Sound (in_words K.Key.kind) (M.Memory.meaning book.old.memory).live book.old.state → M.Memory.meaning book.new.memory ≡ words_after K.Key.kind K.Written.reads (M.Memory.meaning book.old.memory) book.old.state book.old.taken call }
    ensures state { Sound (in_words K.Key.kind) (M.Memory.meaning book.old.memory).live book.old.state → shape_of book.new.state ≡ called_shape K.Key.kind K.Written.reads (M.Memory.meaning book.old.memory) book.old.state book.old.taken call }
    ensures sound { Sound (in_words K.Key.kind) (M.Memory.meaning book.old.memory).live book.old.state → Sound (in_words K.Key.kind) (M.Memory.meaning book.new.memory).live book.new.state }
{
    match call {
        Call::Format { leaves } => {
            book.format(leaves as usize)?;
            Ok(Told::Nothing)
        }
        Call::Open => {
            book.open()?;
            Ok(Told::Nothing)
        }
        Call::Put { key, reading } => {
            let steps = book.put(&K::written(key)?, reading)?;
            Ok(Told::Steps(steps as u64))
        }
        Call::Change { key, reading } => {
            let steps = book.change(&K::written(key)?, reading)?;
            Ok(Told::Steps(steps as u64))
        }
        Call::Remove(key) => Ok(Told::Removed(book.remove(&K::written(key)?)?)),
        Call::Find(fields) => Ok(Told::Number(book.find(&K::written(fields)?)?)),
        Call::Next(fields) => Ok(Told::Pair(book.next(&K::written(fields)?)?)),
        Call::Pairs => Ok(Told::Number(book.pairs()? as u64)),
        Call::Node { node } => {
            let mut record = NodeRecord::new();
            book.node(node as usize, &mut record)?;
            Ok(Told::Node(record))
        }
        Call::State => Ok(Told::State(match book.state() {
            State::Blank => Standing::Blank,
            State::Open(_) => Standing::Open,
            State::Dark => Standing::Dark,
        })),
    }
}

impl<B: Probe> Book<B> {
    // A new logbook over a pile, blank.
    pub fn new(pile: Pile<B>, kind: Option<Kind>) -> Self
        ensures pile { pile_of result ≡ pile }
        ensures kind { kind_of result ≡ kind }
        ensures blank { IsNew result }
    {
        match kind {
            None => Book::Unkind(pile),
            Some(Kind::Stamp) => Book::Stamps(Logbook::new(pile)),
            Some(Kind::Port) => Book::Ports(Logbook::new(pile)),
        }
    }

    // The pile without its logbook.
    pub fn release(self) -> Pile<B>
        ensures { result ≡ pile_of self }
    {
        match self {
            Book::Unkind(pile) => pile,
            Book::Stamps(book) => book.release(),
            Book::Ports(book) => book.release(),
        }
    }

    // The make at the bottom.
    pub fn bottom(&self) -> &B
        ensures { result.now ≡ (pile_of self.now).below.below.below }
    {
        match self {
            Book::Unkind(pile) => bottom(pile),
            Book::Stamps(book) => bottom(book.memory()),
            Book::Ports(book) => bottom(book.memory()),
        }
    }

    pub fn bottom_mut(&mut self) -> &mut B
        ensures { result.now ≡ (pile_of self.old).below.below.below }
    {
        match self {
            Book::Unkind(pile) => bottom_mut(pile),
            Book::Stamps(book) => bottom_mut(book.memory_mut()),
            Book::Ports(book) => bottom_mut(book.memory_mut()),
        }
    }

    // The answer to one call.
    pub fn ask(&mut self, call: Call) -> Result<Told, Trouble>
        ensures answer { IsSound B.Memory.meaning self.old → BookAnswers B.Memory.meaning self.old result call }
        ensures words { IsSound B.Memory.meaning self.old → BookLeaves B.Memory.meaning self.old self.new call }
        ensures state { IsSound B.Memory.meaning self.old → BookStands B.Memory.meaning self.old self.new call }
        ensures kind { kind_of self.new ≡ kind_of self.old }
        ensures sound { IsSound B.Memory.meaning self.old → IsSound B.Memory.meaning self.new }
    {
        match self {
            Book::Unkind(_) => Err(Wrong::NoKind.into()),
            Book::Stamps(book) => ask(book, call),
            Book::Ports(book) => ask(book, call),
        }
    }
    // The image of the words that the layers show.
    pub fn octets(&mut self, alloc: Global) -> Result<Vec<u8>, AllocError>
        ensures image { 8 * size_of (pile_words B.Memory.meaning (pile_of self.old)) < 2 ^ 64 → IfOk result (λ octets. octets.items ≡ image (pile_words B.Memory.meaning (pile_of self.old)).live) }
        ensures same { pile_words B.Memory.meaning (pile_of self.new) ≡ pile_words B.Memory.meaning (pile_of self.old) }
    {
        match self {
            Book::Unkind(pile) => octets_of(alloc, pile),
            Book::Stamps(book) => octets_of(alloc, book.memory_mut()),
            Book::Ports(book) => octets_of(alloc, book.memory_mut()),
        }
    }
}
