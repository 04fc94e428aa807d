// The memory that a script names: a make of memory, and up to three layers upon it.
ghost use Rattle.std.specs.Prelude.{◌≡◌, ◌≤◌, length, slice_index_or};
ghost use Rattle.layers.specs.declared.chosen.Sort.TheVariants.{Hides};
ghost use Rattle.desk.specs.Piles.{pile_words, under};

use layers::chosen::{Chosen, Sort};
use memory::Memory;

// Always three layers: those that the script has not named are margins of no line, and show the memory below as it is.
pub type Pile<B> = Chosen<Chosen<Chosen<B>>>;

// The layer at a place from below, a margin of no line where the script has named none.
fn layer(layers: &[Sort], at: usize) -> Sort
    ensures { result ≡ slice_index_or layers.now at (Hides 0) }
{
    layers.get(at).copied().unwrap_or(Sort::Hides(0))
}

// A make under up to three layers, the first lowest.
pub fn piled<B: Memory>(bottom: B, layers: &[Sort]) -> Pile<B>
    ensures bottom { result.below.below.below ≡ bottom }
    ensures meaning { length layers.now ≤ 3 → pile_words B.Memory.meaning result ≡ under layers.now (B.Memory.meaning bottom) }
{
    let first = Chosen::new(bottom, layer(layers, 0));
    let second = Chosen::new(first, layer(layers, 1));
    Chosen::new(second, layer(layers, 2))
}

// The make without its layers.
pub fn unpile<B: Memory>(pile: Pile<B>) -> B
    ensures { result ≡ pile.below.below.below }
{
    pile.release().release().release()
}

pub fn bottom<B: Memory>(pile: &Pile<B>) -> &B
    ensures { result.now ≡ pile.now.below.below.below }
{
    pile.below().below().below()
}

pub fn bottom_mut<B: Memory>(pile: &mut Pile<B>) -> &mut B
    ensures { result.now ≡ pile.old.below.below.below }
{
    let second = pile.below_mut();
    let first = second.below_mut();
    first.below_mut()
}
