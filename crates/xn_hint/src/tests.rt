ghost use Rattle.std.specs.Prelude.{IsTrue};
ghost use Rattle.xn_model.specs.Graph.{HasNoLoop};

use super::*;
use std::alloc::Global;
use std::test::Fail;
use xn_graph::Web;

const K4: [(u32, u32); 6] = [(0, 1), (0, 2), (0, 3), (1, 2), (1, 3), (2, 3)];

const K5: [(u32, u32); 10] = [
    (0, 1),
    (0, 2),
    (0, 3),
    (0, 4),
    (1, 2),
    (1, 3),
    (1, 4),
    (2, 3),
    (2, 4),
    (3, 4),
];

/// K4 twice, at node 3.
const TWO_K4: [(u32, u32); 12] = [
    (0, 1),
    (0, 2),
    (0, 3),
    (1, 2),
    (1, 3),
    (2, 3),
    (3, 4),
    (3, 5),
    (3, 6),
    (4, 5),
    (4, 6),
    (5, 6),
];

const TREE: [(u32, u32); 10] = [
    (0, 1),
    (0, 2),
    (1, 3),
    (1, 4),
    (4, 5),
    (4, 6),
    (2, 7),
    (7, 8),
    (8, 9),
    (8, 10),
];

/// A cycle, each of its segments twice.
const DOUBLE_CYCLE: [(u32, u32); 10] = [
    (0, 1),
    (1, 2),
    (2, 3),
    (3, 4),
    (4, 0),
    (1, 0),
    (2, 1),
    (3, 2),
    (4, 3),
    (0, 4),
];

/// Whether no segment joins a node to itself.
fn has_no_loop(web: &Web) -> bool
    ensures { IsTrue result → HasNoLoop web.now.ends }
{
    for s in 0..web.segments() {
        let (u, v) = web.end(s);
        if u == v {
            return false;
        }
    }
    true
}

/// What is answered of these segments, each with so many nodes on it. A web with a loop fails.
fn asked(alloc: Global, nodes: u32, ends: &[(u32, u32)], between: u32) -> Result<bool, Fail> {
    let mut all = Vec::new(alloc);
    let mut next = nodes;
    for &(u, v) in ends {
        let mut from = u;
        for _ in 0..between {
            all.push((from, next))?;
            from = next;
            next = next.saturating_add(1);
        }
        all.push((from, v))?;
    }
    let web = Web::make(next, all)?;
    if !has_no_loop(&web) {
        return Err("a loop")?;
    }
    Ok(seems_flat(alloc, &web)?)
}

#[test]
fn kernels_tell(rt: HostRuntime) -> Result<(), Fail> {
    let alloc = rt.alloc();
    assert!(rt; asked(alloc, 4, &K4, 2)?);
    assert!(rt; !asked(alloc, 5, &K5, 2)?);
    assert!(rt; asked(alloc, 11, &TREE, 0)?);
    assert!(rt; asked(alloc, 5, &DOUBLE_CYCLE, 1)?);
    Ok(())
}

#[test]
fn others_are_embedded(rt: HostRuntime) -> Result<(), Fail> {
    assert!(rt; asked(rt.alloc(), 7, &TWO_K4, 0)?);
    Ok(())
}
