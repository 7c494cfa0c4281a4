//! A stated state of K4.
use super::*;

/// The edges of K4.
const K4: [(u32, u32); 6] = [(0, 1), (0, 2), (0, 3), (1, 2), (1, 3), (2, 3)];

#[test]
fn a_pair_is_decided_and_placed(rt: HostRuntime) -> Result<(), Fail> {
    let alloc = rt.alloc();
    let graph = Graph::make(4, K4.to_vec(alloc)?)?;
    let mut given = Given::empty(alloc, &graph)?;
    given.decide(0, 5, true);
    given.place(0, 5, 0)?;
    assert_eq!(rt; given.value(0, 5), Some(true));
    assert!(rt; given.placed(0) == [5].as_slice());
    Ok(())
}
