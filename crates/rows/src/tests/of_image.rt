// Images on examples.
ghost use Rattle.std.specs.Prelude.{◌≡◌, Ok};

use image::{read, write};
use makes::through::Through;
use memory::Memory;
use refusal::Refusal;
use std::test::Fail;

// Writing then reading gives back the words, on any memory.
fn carry<M: Memory>(memory: &mut M, octets: &mut [u8], words: &mut [u64]) -> Result<(), Refusal>
    ensures { result ≡ Ok tt → words.new ≡ (M.Memory.meaning memory.old).live }
{
    write(memory, octets)?;
    read(octets, words)
}

#[test]
fn comes_back(rt: HostRuntime) -> Result<(), Fail> {
    let mut run = [1, 0x0102030405060708];
    let mut octets = [9; 16];
    let mut words = [7; 2];
    carry(&mut Through::new(&mut run), &mut octets, &mut words)?;
    assert_eq!(rt; octets, [0, 0, 0, 0, 0, 0, 0, 1, 1, 2, 3, 4, 5, 6, 7, 8]);
    assert_eq!(rt; words, [1, 0x0102030405060708]);
    Ok(())
}

#[test]
fn wrong_length(rt: HostRuntime) {
    let mut run = [1, 2];
    let mut octets = [9; 15];
    assert_eq!(rt;
        write(&mut Through::new(&mut run), &mut octets),
        Err(Refusal::WrongLength)
    );
    assert_eq!(rt; octets, [9; 15]);
    assert_eq!(rt; read(&octets, &mut run), Err(Refusal::WrongLength));
    assert_eq!(rt; run, [1, 2]);
}
