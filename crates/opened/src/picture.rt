// The image of a memory, as octets of a file, and the words of which it is the image.
ghost use Rattle.std.specs.Prelude.{◌≡◌, ◌^◌, ◌*◌, ◌%◌, ◌<◌, ◌==◌, ◌↔◌, cond, length, IfOk, IsOk, slice_index};
ghost use Rattle.image.specs.Image.{image};
ghost use Rattle.memory.specs.Meaning.{size_of};

use keys::Key;
use keys::port::Port;
use memory::Memory;
use refusal::Refusal;
use script::line::Kind;
use std::alloc::{AllocError, Global};

// The image of the words that a memory shows.
pub fn octets_of<M: Memory>(alloc: Global, memory: &mut M) -> Result<Vec<u8>, AllocError>
    ensures image { 8 * size_of (M.Memory.meaning memory.old) < 2 ^ 64 → IfOk result (λ octets. octets.items ≡ image (M.Memory.meaning memory.old).live) }
    ensures same { M.Memory.meaning memory.new ≡ M.Memory.meaning memory.old }
{
    let mut octets = vec![in alloc; 0; memory.size().saturating_mul(8)]?;
    let _ = image::write(memory, &mut octets);
    Ok(octets)
}

// The words of an image; refused where its octets are no whole number of words.
pub fn words_of(alloc: Global, octets: &[u8]) -> Result<Result<Vec<u64>, Refusal>, AllocError>
    ensures image { IfOk result (λ read. IfOk read (λ words. image words.items ≡ octets.now)) }
    ensures refused { IfOk result (λ read. IsOk read ↔ (length octets.now % 8 ≡ 0)) }
{
    let mut words = vec![in alloc; 0; octets.len() / 8]?;
    Ok(image::read(octets, &mut words).map(|()| words))
}

// The kind of key of a logbook's words, by their code: stamps unless they say ports, so that opening refuses another code.
pub fn kind_of(words: &[u64]) -> Kind
    ensures { result ≡ cond (slice_index words.now 1 == 2) Kind.Port Kind.Stamp }
{
    match words.get(1) {
        Some(code) if *code == <Port as Key>::code() => Kind::Port,
        _ => Kind::Stamp,
    }
}
