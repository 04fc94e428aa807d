// Layers, as lists: the bottom word under each word that a pile shows.
use std::alloc::{AllocError, Global};

#[derive(Clone, Copy)]
pub enum Layer {
    Margin { lines: usize },
    Rotation { by: usize },
}

fn without_first(alloc: Global, below: &[usize], lines: usize) -> Result<Vec<usize>, AllocError> {
    let mut shown = Vec::new(alloc);
    for (i, word) in below.iter().enumerate() {
        if i / 8 >= lines {
            shown.push(*word)?;
        }
    }
    Ok(shown)
}

fn turned(alloc: Global, below: &[usize], by: usize) -> Result<Vec<usize>, AllocError> {
    let mut shown = Vec::new(alloc);
    let lines = below.len() / 8;
    let by = by % lines.max(1);
    for line in 0..lines {
        let from = line.saturating_add(by) % lines.max(1);
        for word in below.iter().skip(from.saturating_mul(8)).take(8) {
            shown.push(*word)?;
        }
    }
    Ok(shown)
}

// The words of a make of this size under layers, the first lowest.
pub fn places(alloc: Global, size: usize, layers: &[Layer]) -> Result<Vec<usize>, AllocError> {
    let mut shown = Vec::new(alloc);
    for word in 0..size {
        shown.push(word)?;
    }
    for layer in layers {
        shown = match *layer {
            Layer::Margin { lines } => without_first(alloc, shown.as_slice(), lines)?,
            Layer::Rotation { by } => turned(alloc, shown.as_slice(), by)?,
        };
    }
    Ok(shown)
}
