ghost use Rattle.std.specs.Prelude.{◌≡◌};
ghost use Rattle.layers.specs.Layers.{margin};
ghost use Rattle.layers.specs.NumberingLaws.{margin_sound};

use crate::layer::{Layer, Renumber};
use memory::Memory;

// A margin hides the first lines of the memory below: word i is word i + 8 × lines of it.
pub type Margin<M> = Layer<Hidden, M>;

// The numbering of a margin: how many lines it hides.
#[derive(Drop)]
pub struct Hidden {
    pub(crate) lines: usize,
}

impl<M: Memory> Layer<Hidden, M> {
    pub fn new(below: M, lines: usize) -> Self
        ensures below { result.below ≡ below }
        ensures hidden { result.numbering.lines ≡ lines }
    {
        let numbering = Hidden { lines };
        Layer { numbering, below }
    }
}

impl Renumber for Hidden {
    ghost numbering = { λ h. margin h.lines };

    ghost sound = { λ h. margin_sound h.lines };

    fn words(&self, size: usize) -> usize {
        size.saturating_sub(self.lines.saturating_mul(8))
    }

    fn word_below(&self, size: usize, at: usize) -> Option<usize> {
        (at < self.words(size)).then(|| at + 8 * self.lines)
    }

    fn line_below(&self, size: usize, line: usize) -> Option<usize> {
        let lines = size.div_ceil(8).saturating_sub(self.lines);
        (line < lines).then(|| line + self.lines)
    }
}
