ghost use Rattle.std.specs.Prelude.{IsTrue};
ghost use Rattle.xn_model.specs.Graph.{HasNoLoop};

use super::*;
use std::alloc::Global;
use std::test::Fail;
use xn_graph::Web;

/// Stands after each block.
const END: u32 = u32::MAX;

/// Whether no segment joins a node to itself.
fn has_no_loop(web: &Web) -> bool
    ensures { IsTrue result → HasNoLoop web.now.ends }
{
    for s in 0..web.segments() {
        let (u, v) = web.end(s);
        if u == v {
            return false;
        }
    }
    true
}

/// The blocks one after another, with `END` after each, and the cut nodes. A web with a loop fails.
fn found(alloc: Global, nodes: u32, ends: &[(u32, u32)]) -> Result<(Vec<u32>, Vec<u32>), Fail> {
    let web = Web::make(nodes, Vec::from_slice(alloc, ends)?)?;
    if !has_no_loop(&web) {
        return Err("a loop")?;
    }
    let list = blocks(alloc, &web)?;
    let mut all = Vec::new(alloc);
    for i in 0..list.count() {
        all.extend_from_slice(list.block(i))?;
        all.push(END)?;
    }
    Ok((all, Vec::from_slice(alloc, list.cuts())?))
}

/// Whether a web has these blocks and cut nodes.
fn has(
    alloc: Global,
    nodes: u32,
    ends: &[(u32, u32)],
    blocks: &[u32],
    cuts: &[u32],
) -> Result<bool, Fail> {
    let (all, nodes_cut) = found(alloc, nodes, ends)?;
    Ok(all.as_slice() == blocks && nodes_cut.as_slice() == cuts)
}

#[test]
fn blocks_of_small_webs(rt: HostRuntime) -> Result<(), Fail> {
    let alloc = rt.alloc();
    let k5 = [
        (0, 1),
        (0, 2),
        (0, 3),
        (0, 4),
        (1, 2),
        (1, 3),
        (1, 4),
        (2, 3),
        (2, 4),
        (3, 4),
    ];
    let two_k5 = [
        (0, 1),
        (0, 2),
        (0, 3),
        (0, 4),
        (1, 2),
        (1, 3),
        (1, 4),
        (2, 3),
        (2, 4),
        (3, 4),
        (4, 5),
        (4, 6),
        (4, 7),
        (4, 8),
        (5, 6),
        (5, 7),
        (5, 8),
        (6, 7),
        (6, 8),
        (7, 8),
    ];
    let triangles = [(0, 1), (2, 3), (1, 2), (3, 4), (2, 0), (4, 2)];
    let bridge = [(0, 1), (1, 2), (2, 0), (2, 3), (3, 4), (4, 5), (5, 3)];
    let tree = [(0, 1), (1, 2), (1, 3)];
    let parallel = [(0, 1), (1, 2), (1, 0)];
    assert!(rt; has(alloc, 5, &k5, &[0, 1, 2, 3, 4, 5, 6, 7, 8, 9, END], &[])?);
    assert!(rt;
        has(
            alloc,
            9,
            &two_k5,
            &[
                0, 1, 2, 3, 4, 5, 6, 7, 8, 9, END, 10, 11, 12, 13, 14, 15, 16, 17, 18, 19, END
            ],
            &[4]
        )?
    );
    assert!(rt; has(alloc, 5, &triangles, &[0, 2, 4, END, 1, 3, 5, END], &[2])?);
    assert!(rt;
        has(
            alloc,
            6,
            &bridge,
            &[0, 1, 2, END, 3, END, 4, 5, 6, END],
            &[2, 3]
        )?
    );
    assert!(rt; has(alloc, 4, &tree, &[0, END, 1, END, 2, END], &[1])?);
    assert!(rt; has(alloc, 3, &parallel, &[0, 2, END, 1, END], &[1])?);
    assert!(rt; has(alloc, 5, &[(3, 1)], &[0, END], &[])?);
    assert!(rt; has(alloc, 3, &[], &[], &[])?);
    assert!(rt; has(alloc, 0, &[], &[], &[])?);
    Ok(())
}
