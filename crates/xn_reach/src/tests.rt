ghost use Rattle.std.specs.Prelude.{IsTrue};
ghost use Rattle.xn_model.specs.Graph.{HasNoLoop};

use super::*;
use std::alloc::Global;
use std::test::Fail;
use xn_graph::Web;

const K4: [(u32, u32); 6] = [(0, 1), (0, 2), (0, 3), (1, 2), (1, 3), (2, 3)];

/// Eight segments to nodes of their own, and then K5.
const FRINGED_K5: [(u32, u32); 18] = [
    (0, 5),
    (0, 6),
    (0, 7),
    (0, 8),
    (0, 9),
    (0, 10),
    (0, 11),
    (0, 12),
    (0, 1),
    (0, 2),
    (0, 3),
    (0, 4),
    (1, 2),
    (1, 3),
    (1, 4),
    (2, 3),
    (2, 4),
    (3, 4),
];

/// Whether no segment joins a node to itself.
fn has_no_loop(web: &Web) -> bool
    ensures { IsTrue result → HasNoLoop web.now.ends }
{
    for s in 0..web.segments() {
        let (u, v) = web.end(s);
        if u == v {
            return false;
        }
    }
    true
}

/// The numbers of nodes, segments and faces of the map to which a list leads, or none. A flaw of the list fails.
fn reached(
    alloc: Global,
    nodes: u32,
    ends: &[(u32, u32)],
    list: &[u32],
) -> Result<Option<(u32, u32, u64)>, Fail> {
    let web = Web::make(nodes, Vec::from_slice(alloc, ends)?)?;
    if !has_no_loop(&web) || list_flaw(alloc, &web, list)?.is_some() {
        return Err("no order of segments")?;
    }
    match reach_end(alloc, &web, list)? {
        Extended::Flat(map) => {
            let counts = (map.web().nodes(), map.web().segments(), map.faces(alloc)?);
            Ok(Some(counts))
        }
        Extended::None => Ok(None),
    }
}

#[test]
fn lists_with_an_end(rt: HostRuntime) -> Result<(), Fail> {
    let alloc = rt.alloc();
    assert_eq!(rt;
        reached(alloc, 4, &K4, &[0, 1, 2, 3, 4, 5])?,
        Some((4, 6, 4))
    );
    assert_eq!(rt; reached(alloc, 4, &K4, &[5, 1])?, Some((4, 2, 2)));
    let less = [0, 1, 2, 3, 4, 5, 6, 7, 8, 9, 10, 11, 12, 13, 14, 15, 16];
    assert_eq!(rt; reached(alloc, 13, &FRINGED_K5, &less)?, Some((13, 17, 6)));
    Ok(())
}

#[test]
fn lists_without_one(rt: HostRuntime) -> Result<(), Fail> {
    let alloc = rt.alloc();
    let ten = [0, 1, 2, 3, 4, 5, 6, 7, 8, 9];
    assert_eq!(rt; reached(alloc, 13, &FRINGED_K5[8..], &ten)?, None);
    let all = [0, 1, 2, 3, 4, 5, 6, 7, 8, 9, 10, 11, 12, 13, 14, 15, 16, 17];
    assert_eq!(rt; reached(alloc, 13, &FRINGED_K5, &all)?, None);
    Ok(())
}
