ghost use Rattle.std.specs.Prelude.{◌≡◌};
ghost use Rattle.layers.specs.Layers.{rotation};
ghost use Rattle.layers.specs.NumberingLaws.{rotation_sound};

use crate::layer::{Layer, Renumber};
use memory::Memory;

// A rotation has the whole lines of the memory below, turned: its line l is line (l + by) mod their number. A short last line is no part of it.
pub type Rotation<M> = Layer<Turned, M>;

// The numbering of a rotation: by how many lines it turns.
#[derive(Drop)]
pub struct Turned {
    pub(crate) by: usize,
}

impl<M: Memory> Layer<Turned, M> {
    pub fn new(below: M, by: usize) -> Self
        ensures below { result.below ≡ below }
        ensures by { result.numbering.by ≡ by }
    {
        let numbering = Turned { by };
        Layer { numbering, below }
    }
}

impl Renumber for Turned {
    ghost numbering = { λ t. rotation t.by };

    ghost sound = { λ t. rotation_sound t.by };

    fn words(&self, size: usize) -> usize {
        8 * (size / 8)
    }

    fn word_below(&self, size: usize, at: usize) -> Option<usize> {
        let line = self.line_below(size, at / 8)?;
        Some(8 * line + at % 8)
    }

    fn line_below(&self, size: usize, line: usize) -> Option<usize> {
        let lines = size / 8;
        (line < lines).then(|| (line + self.by % lines) % lines)
    }
}
