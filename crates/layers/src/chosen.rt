ghost use Rattle.std.specs.Prelude.{◌≡◌};
ghost use Rattle.layers.specs.Chosen.{chosen_sound, numbered};

use crate::layer::{Layer, Renumber};
use crate::margin::Hidden;
use crate::rotation::Turned;
use memory::Memory;

// A layer whose sort is known only when the program runs: a margin or a rotation.
pub type Chosen<M> = Layer<Sort, M>;

// A margin by so many lines, or a rotation by so many.
#[derive(Clone, Copy)]
pub enum Sort {
    Hides(usize),
    Turns(usize),
}

impl<M: Memory> Layer<Sort, M> {
    pub fn new(below: M, sort: Sort) -> Self
        ensures below { result.below ≡ below }
        ensures sort { result.numbering ≡ sort }
    {
        Layer {
            numbering: sort,
            below,
        }
    }
}

impl Renumber for Sort {
    ghost numbering = { numbered };

    ghost sound = { chosen_sound };

    fn words(&self, size: usize) -> usize {
        match *self {
            Sort::Hides(lines) => Hidden { lines }.words(size),
            Sort::Turns(by) => Turned { by }.words(size),
        }
    }

    fn word_below(&self, size: usize, at: usize) -> Option<usize> {
        match *self {
            Sort::Hides(lines) => Hidden { lines }.word_below(size, at),
            Sort::Turns(by) => Turned { by }.word_below(size, at),
        }
    }

    fn line_below(&self, size: usize, line: usize) -> Option<usize> {
        match *self {
            Sort::Hides(lines) => Hidden { lines }.line_below(size, line),
            Sort::Turns(by) => Turned { by }.line_below(size, line),
        }
    }
}
