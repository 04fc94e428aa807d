// Kinds of key on examples.
use keys::port::Port;
use keys::stamp::Stamp;
use keys::{Key, compare, compare_words, greater};
use refusal::Refusal;
use std::cmp::Ordering;
use std::test::Fail;

// The number of the refusal, if there is one.
fn refused<K: Key>(made: Result<K, Refusal>) -> Option<u8> {
    made.err().map(Refusal::number)
}

#[test]
fn days_of_leap_years(rt: HostRuntime) {
    assert_eq!(rt; refused(Stamp::new(2024, 366, 0)), None);
    assert_eq!(rt; refused(Stamp::new(2023, 366, 0)), Some(10));
    assert_eq!(rt; refused(Stamp::new(2100, 366, 0)), Some(10));
    assert_eq!(rt; refused(Stamp::new(2024, 0, 0)), Some(10));
    assert_eq!(rt; refused(Stamp::new(2024, 1, 86_400_000)), Some(10));
}

#[test]
fn words_of_a_stamp(rt: HostRuntime) -> Result<(), Fail> {
    let last = Stamp::new(2024, 366, 0)?;
    let (first, second) = last.pack();
    assert_eq!(rt; first, 0);
    assert_eq!(rt; second, 1_036_654);
    let again = <Stamp as Key>::unpack((0, 1_036_654))?;
    assert_eq!(rt; again.day(), 366);
    assert_eq!(rt; refused(<Stamp as Key>::unpack((0, 0))), Some(10));
    Ok(())
}

#[test]
fn order_of_stamps(rt: HostRuntime) -> Result<(), Fail> {
    let late = Stamp::new(2024, 1, 86_399_999)?;
    let next = Stamp::new(2024, 2, 0)?;
    assert!(rt; late.before(&next));
    assert_eq!(rt; compare(&next, &late), Ordering::Greater);
    let (first, second) = greater::<Stamp>(next.pack(), (0, 0));
    assert_eq!(rt; first, 0);
    assert_eq!(rt; second, 0);
    Ok(())
}

#[test]
fn numbers_of_ports(rt: HostRuntime) -> Result<(), Fail> {
    let port = Port::from_octets([0, 0, 0, 0, 0, 0, 1, 2], 65_534)?;
    assert_eq!(rt; port.identity(), 258);
    assert_eq!(rt; refused(Port::new(258, 65_535)), Some(10));
    assert_eq!(rt; refused(Port::new(u64::MAX, 1)), Some(10));
    assert_eq!(rt;
        compare_words::<Port>(port.pack(), (258, 65_533)),
        Ordering::Greater
    );
    Ok(())
}
