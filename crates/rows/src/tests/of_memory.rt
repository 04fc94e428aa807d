// Memories on examples.
use layers::margin::Margin;
use layers::rotation::Rotation;
use makes::buffered::Buffered;
use makes::through::Through;
use memory::{Memory, cut};
use refusal::Refusal;

// Line 18 of 19 turned by 1 is line 0 below.
#[test]
fn turned(rt: HostRuntime) {
    let mut run = [0; 152];
    run[0] = 5;
    let mut m = Rotation::new(Through::new(&mut run), 1);
    assert_eq!(rt; m.line_below(18), Some(0));
    assert_eq!(rt; m.read(144), Ok(5));
}

// A cut under two layers keeps the live word at an odd choice only.
#[test]
fn mixed(rt: HostRuntime) {
    let mut live = [0; 24];
    let mut firm = [0; 30];
    let mut m = Rotation::new(Margin::new(Buffered::new(&mut live, &mut firm, 2), 1), 1);
    assert_eq!(rt; m.store(0, 7), Ok(()));
    assert_eq!(rt; m.store(0, 8), Err(Refusal::Unsettled));
    assert_eq!(rt; m.store(9, 9), Ok(()));
    assert_eq!(rt; m.flush(0), Err(Refusal::NoPower));
    let mut choice = [0; 24];
    choice[16] = 1;
    assert_eq!(rt; cut(&mut m, &choice[0..23], 1), Err(Refusal::WrongLength));
    assert_eq!(rt; cut(&mut m, &choice, 1), Ok(()));
    assert_eq!(rt; m.read(0), Ok(7));
    assert_eq!(rt; m.read(9), Ok(0));
    assert_eq!(rt; m.read(16), Err(Refusal::Outside));
}

// A through memory over a part of a longer run reaches that part alone.
#[test]
fn part(rt: HostRuntime) {
    let mut run = [5; 20];
    let mut m = Through::new(&mut run[3..19]);
    assert_eq!(rt; m.store(0, 7), Ok(()));
    assert_eq!(rt; m.store(16, 7), Err(Refusal::Outside));
    assert_eq!(rt; (run[2], run[3], run[19]), (5, 7, 5));
}
