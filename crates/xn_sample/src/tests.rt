ghost use Rattle.std.specs.Prelude.{◌≤◌};

use super::*;
use std::alloc::Global;
use std::test::Fail;

// The ends of all edges of a sample graph.
fn ends(alloc: Global, nodes: u32) -> Result<Vec<(u32, u32)>, Fail>
    requires { (3 ≤ nodes) × (nodes ≤ 400) }
{
    let graph = sample(alloc, nodes)?;
    let mut ends = Vec::new(alloc);
    for e in 0..graph.edges() {
        ends.push(graph.end(e))?;
    }
    Ok(ends)
}

#[test]
fn samples_have_these_edges(rt: HostRuntime) -> Result<(), Fail> {
    let alloc = rt.alloc();
    let rim = [
        (0, 1),
        (1, 2),
        (2, 3),
        (3, 4),
        (4, 5),
        (5, 6),
        (6, 7),
        (7, 0),
    ];
    let chords = [(2, 0), (1, 7), (7, 0), (6, 7)];
    let eight = ends(alloc, 8)?;
    assert_eq!(rt; eight.len(), 12);
    assert_eq!(rt; &eight.as_slice()[..8], rim.as_slice());
    assert_eq!(rt; &eight.as_slice()[8..], chords.as_slice());
    let three = [(0, 1), (1, 2), (2, 0), (2, 0)];
    assert_eq!(rt; ends(alloc, 3)?.as_slice(), three.as_slice());
    assert_eq!(rt; sample(alloc, 200)?.nodes(), 200);
    assert_eq!(rt; sample(alloc, 200)?.edges(), 300);
    Ok(())
}

#[test]
fn states_follow_one_another(rt: HostRuntime) -> Result<(), Fail> {
    let mut draws = Draws::new(8);
    for state in [674, 50624, 61265, 7359, 27703, 46152, 53550, 18567] {
        assert_eq!(rt; draws.next(65537), state);
    }
    Ok(())
}
