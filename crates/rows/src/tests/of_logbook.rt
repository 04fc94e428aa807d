// Logbooks on examples.
use keys::port::Port;
use keys::stamp::Stamp;
use layers::margin::Margin;
use layers::rotation::Rotation;
use makes::buffered::Buffered;
use memory::Memory;
use refusal::Refusal;
use std::test::Fail;
use tree::logbook::Logbook;
use tree::logbook::carry::Halt;
use tree::logbook::turn::Removed;

type Pile<'a> = Rotation<Margin<Buffered<'a>>>;

// A buffered memory under a margin of one line and a rotation by one line.
fn pile<'a>(live: &'a mut [u64], firm: &'a mut [u64], steps: u64) -> Pile<'a> {
    Rotation::new(Margin::new(Buffered::new(live, firm, steps), 1), 1)
}

fn steps_left(memory: &Pile<'_>) -> u64 {
    memory.below().below().steps_left()
}

// A call refused without a step.
fn refused(refusal: Refusal) -> Halt {
    Halt { refusal, steps: 0 }
}

// Pairs put, changed, taken out and asked for; steps left of 100: 12 for the format, 7 for a put or remove, 12 for a change.
#[test]
fn stamps(rt: HostRuntime) -> Result<(), Fail> {
    let mut live = [0; 160];
    let mut firm = [0; 160];
    let mut book = Logbook::<Stamp, Pile<'_>>::new(pile(&mut live, &mut firm, 100));
    let leap = Stamp::new(2024, 366, 0)?;
    assert_eq!(rt; book.format(2), Ok(()));
    assert_eq!(rt; book.put(&leap, 7), Ok(7));
    assert_eq!(rt; book.change(&leap, 9), Ok(12));
    assert_eq!(rt; book.change(&leap, 9), Ok(0));
    assert_eq!(rt; book.find(&leap), Ok(9));
    let pair = book.next(&Stamp::new(2024, 365, 0)?)?;
    assert_eq!(rt; pair.key, (0, 1_036_654));
    assert_eq!(rt; pair.reading, 9);
    assert_eq!(rt; book.pairs(), Ok(1));
    let removed = Removed {
        reading: 9,
        steps: 7,
    };
    assert_eq!(rt; book.remove(&leap), Ok(removed));
    assert_eq!(rt; book.pairs(), Ok(0));
    assert_eq!(rt; steps_left(&book.release()), 62);
    Ok(())
}

// What is refused without a step: by the state, by the words, by the book.
#[test]
fn refusals(rt: HostRuntime) -> Result<(), Fail> {
    let mut live = [0; 160];
    let mut firm = [0; 160];
    let mut book = Logbook::<Stamp, Pile<'_>>::new(pile(&mut live, &mut firm, 100));
    let leap = Stamp::new(2024, 366, 0)?;
    assert_eq!(rt; book.put(&leap, 7), Err(refused(Refusal::Blank)));
    assert_eq!(rt; book.format(65), Err(Refusal::LeafCount));
    assert_eq!(rt; book.format(3), Err(Refusal::WrongLength));
    assert_eq!(rt; book.format(2), Ok(()));
    assert_eq!(rt; book.change(&leap, 8), Err(refused(Refusal::Absent)));
    assert_eq!(rt; book.remove(&leap), Err(refused(Refusal::Absent)));
    assert_eq!(rt; book.find(&leap), Err(Refusal::Absent));
    assert_eq!(rt; book.put(&leap, 7), Ok(7));
    assert_eq!(rt; book.put(&leap, 8), Err(refused(Refusal::Present)));
    assert_eq!(rt; book.next(&leap).err(), Some(Refusal::Absent));
    Ok(())
}

// Puts a reading for each port number from 1 on; the first refusal ends it.
fn put_ports<M: Memory>(book: &mut Logbook<Port, M>, count: u64) -> Result<(), Halt> {
    for number in 1..=count {
        book.put(&Port::new(258, number)?, number)?;
    }
    Ok(())
}

// A full leaf is split where two leaves are free, and a new logbook finds what was put.
#[test]
fn ports(rt: HostRuntime) -> Result<(), Fail> {
    let mut live = [0; 232];
    let mut firm = [0; 232];
    let mut book = Logbook::<Port, Pile<'_>>::new(pile(&mut live, &mut firm, 300));
    assert_eq!(rt; book.format(3), Ok(()));
    assert_eq!(rt; put_ports(&mut book, 16), Ok(()));
    assert_eq!(rt; book.put(&Port::new(258, 17)?, 17), Ok(87));
    let memory = book.release();
    assert_eq!(rt; steps_left(&memory), 89);
    let mut again = Logbook::<Port, Pile<'_>>::new(memory);
    assert!(rt; again.open().is_ok());
    assert_eq!(rt; again.pairs(), Ok(17));
    assert_eq!(rt; again.find(&Port::new(258, 17)?), Ok(17));
    Ok(())
}

// With one free leaf a split is refused, and what needs none is not.
#[test]
fn no_room(rt: HostRuntime) -> Result<(), Fail> {
    let mut live = [0; 160];
    let mut firm = [0; 160];
    let mut book = Logbook::<Port, Pile<'_>>::new(pile(&mut live, &mut firm, 300));
    let first = Port::new(258, 1)?;
    assert_eq!(rt; book.format(2), Ok(()));
    assert_eq!(rt; put_ports(&mut book, 17), Err(refused(Refusal::NoRoom)));
    assert_eq!(rt; book.change(&first, 1), Ok(0));
    assert_eq!(rt; book.change(&first, 2), Err(refused(Refusal::NoRoom)));
    let removed = Removed {
        reading: 1,
        steps: 74,
    };
    assert_eq!(rt; book.remove(&first), Ok(removed));
    assert_eq!(rt; book.pairs(), Ok(15));
    Ok(())
}

// The memory's last step is told, and then nothing but the lack of power.
#[test]
fn no_power(rt: HostRuntime) -> Result<(), Fail> {
    let mut live = [0; 160];
    let mut firm = [0; 160];
    let mut book = Logbook::<Stamp, Pile<'_>>::new(pile(&mut live, &mut firm, 18));
    let leap = Stamp::new(2024, 366, 0)?;
    assert_eq!(rt; book.format(2), Ok(()));
    let halt = Halt {
        refusal: Refusal::NoPower,
        steps: 6,
    };
    assert_eq!(rt; book.put(&leap, 7), Err(halt));
    assert_eq!(rt; book.remove(&leap), Err(refused(Refusal::NoPower)));
    assert_eq!(rt; book.find(&leap), Err(Refusal::NoPower));
    assert_eq!(rt; book.format(2), Err(Refusal::NoPower));
    Ok(())
}
