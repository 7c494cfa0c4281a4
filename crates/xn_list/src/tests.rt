use super::*;
use std::test::Fail;

#[test]
fn copies_are_made(rt: HostRuntime) -> Result<(), Fail> {
    let numbers = Sequence::new([3, 1, 2].to_vec(rt.alloc())?);
    let copy = copied(rt.alloc(), &numbers)?;
    assert_eq!(rt; copy.as_slice(), [3, 1, 2].as_slice());
    let lists = Lists::new(vec![in rt.alloc(); [9].to_vec(rt.alloc())?, Vec::new(rt.alloc())]?);
    let copy = lists.copy(rt.alloc())?;
    assert_eq!(rt; copy.len(), 2);
    assert_eq!(rt; copy.at(0), [9].as_slice());
    Ok(())
}

#[test]
fn elements_stand_at_their_places(rt: HostRuntime) -> Result<(), Fail> {
    let parts = Sequence::new([(4u32, 7u64), (5, 8)].to_vec(rt.alloc())?);
    assert_eq!(rt; parts.len(), 2);
    assert_eq!(rt; *parts.at(1), (5, 8));
    Ok(())
}
