//! What the darts lead to after each step of a stated run.
use super::*;
use std::test::Fail;

#[test]
fn two_splices_make_a_ring_of_three(rt: HostRuntime) -> Result<(), Fail> {
    let mut rings = Rings::new(rt.alloc(), 4)?;
    let steps = [
        (0, 1, [1, 0, 2, 3], [1, 0, 2, 3]),
        (0, 2, [2, 0, 1, 3], [1, 2, 0, 3]),
        (3, 3, [2, 0, 1, 3], [1, 2, 0, 3]),
    ];
    for (a, b, next, prev) in steps {
        assert!(rt; a < rings.len() && b < rings.len());
        rings.splice(a, b);
        assert_eq!(rt; rings.len(), 4);
        for d in 0..4 {
            assert_eq!(rt; rings.next(d), next[d as usize], "after {a} and {b}");
            assert_eq!(rt; rings.prev(d), prev[d as usize], "after {a} and {b}");
        }
    }
    Ok(())
}

#[test]
fn new_darts_are_alone_and_can_be_taken_away(rt: HostRuntime) -> Result<(), Fail> {
    let mut rings = Rings::new(rt.alloc(), 4)?;
    rings.splice(0, 1);
    rings.splice(0, 2);
    rings.grow(2)?;
    assert_eq!(rt; rings.len(), 6);
    for (d, next) in [(0, 2), (1, 0), (2, 1), (3, 3), (4, 4), (5, 5)] {
        assert_eq!(rt; rings.next(d), next);
    }
    rings.shrink(2);
    assert_eq!(rt; rings.len(), 4);
    for (d, next) in [(0, 2), (1, 0), (2, 1), (3, 3)] {
        assert_eq!(rt; rings.next(d), next);
    }
    Ok(())
}
