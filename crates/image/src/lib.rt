//! The image of a memory: its live words as octets, the most significant octet of each word first.
#![tactic(auto)]

ghost use Rattle.std.specs.Prelude.{◌≡◌, ◌+◌, ◌*◌, ◌/◌, ◌^◌, ◌<◌, ◌++◌, length, take, drop, Ok};
ghost use Rattle.image.specs.Image.{LongAs, OneImage, ReadBack, WrittenBack, after_read, after_write, image, image_answer, octets_at, octets_of};
ghost use Rattle.memory.specs.Meaning.{size_of};
ghost use Rattle.std.specs.Int.Digits.{AllBelowBase, number_from_digits};

use memory::Memory;
use refusal::Refusal;

// Eight octets for each word, no more and no fewer.
fn check_length(octets: usize, words: usize) -> Result<(), Refusal>
    ensures { result ≡ image_answer octets words }
{
    if octets % 8 != 0 || octets / 8 != words {
        return Err(Refusal::WrongLength);
    }
    Ok(())
}

// Puts the octets of one word in their place.
fn write_word(octets: &mut [u8], at: usize, word: u64)
    requires { at < length octets.old / 8 }
    ensures placed { octets.new ≡ take (8 * at) octets.old ++ (octets_of word ++ drop (8 * at + 8) octets.old) }
    ensures fits { word < 2 ^ 64 }
{
    octets[8 * at..8 * at + 8].copy_from_slice(&word.to_be_bytes());
}

// The word that eight octets write.
fn word_of(octets: &[u8; 8]) -> u64
    ensures { result ≡ number_from_digits 256 octets.now }
{
    u64::from_be_bytes(*octets)
}

// Writes the image of a memory's live words, by reads alone: no step is spent. Refused unless there are eight octets
// for each word.
pub fn write<M: Memory>(memory: &mut M, octets: &mut [u8]) -> Result<(), Refusal>
    ensures answer { result ≡ image_answer (length octets.old) (size_of (M.Memory.meaning memory.old)) }
    ensures after { octets.new ≡ after_write (M.Memory.meaning memory.old).live octets.old }
    ensures fit { result ≡ Ok tt → AllBelowBase (2 ^ 64) (M.Memory.meaning memory.old).live }
    ensures kept { M.Memory.meaning memory.new ≡ M.Memory.meaning memory.old }
{
    let size = memory.size();
    check_length(octets.len(), size)?;
    // Counted: a memory is read by the number of a word, and what is written through `as_chunks_mut` is not known afterwards.
    for i in 0..size {
        let word = memory.read(i)?;
        write_word(octets, i, word);
    }
    Ok(())
}

// Reads words from their image. Refused unless there are eight octets for each word.
pub fn read(octets: &[u8], words: &mut [u64]) -> Result<(), Refusal>
    ensures answer { result ≡ image_answer (length octets.now) (length words.old) }
    ensures after { words.new ≡ after_read octets.now words.old }
    ensures image { result ≡ Ok tt → image words.new ≡ octets.now }
{
    check_length(octets.len(), words.len())?;
    let (groups, _) = octets.as_chunks::<8>();
    for (i, group) in groups.iter().enumerate() {
        words[i] = word_of(group);
    }
    Ok(())
}

// How many octets a word takes.
fn octets_per_word() -> usize
    ensures { result ≡ 8 }
{
    u64::BITS as usize / 8
}

// What holds of every image: each word takes so many octets, words come back from their image and octets from their
// words, and no two lists of words share an image.
pub fn image_stands() -> usize
    ensures long { LongAs result }
    ensures read_back { ReadBack }
    ensures written_back { WrittenBack }
    ensures one_image { OneImage }
{
    octets_per_word()
}
