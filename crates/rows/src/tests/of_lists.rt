// Lists of fixed size on examples.
use fixed_vec::FixedVec;
use fixed_vec::list::Full;
use std::test::Fail;

#[test]
fn as_many_as_fit(rt: HostRuntime) -> Result<(), Fail> {
    let mut list = FixedVec::<u64, 3>::new(0);
    list.push(5)?;
    list.extend_from_slice(&[6, 7])?;
    assert_eq!(rt; list.push(8), Err(Full));
    assert_eq!(rt; list.replace(1, 9), Some(6));
    assert_eq!(rt; list.replace(3, 9), None);
    let copy = list.clone()?;
    assert_eq!(rt; copy.as_slice(), [5, 9, 7].as_slice());
    Ok(())
}
