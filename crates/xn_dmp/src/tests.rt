ghost use Rattle.std.specs.Prelude.{IsTrue};
ghost use Rattle.xn_model.specs.Graph.{HasNoLoop};

use super::*;
use std::alloc::Global;
use std::test::Fail;
use xn_graph::Web;

/// The web of each two of these nodes.
fn complete(alloc: Global, nodes: u32) -> Result<Web, Fail> {
    let mut ends = Vec::new(alloc);
    for u in 0..nodes {
        for v in u + 1..nodes {
            ends.push((u, v))?;
        }
    }
    Ok(Web::make(nodes, ends)?)
}

/// Whether no segment joins a node to itself.
fn has_no_loop(web: &Web) -> bool
    ensures { IsTrue result → HasNoLoop web.now.ends }
{
    for s in 0..web.segments() {
        let (u, v) = web.end(s);
        if u == v {
            return false;
        }
    }
    true
}

/// The number of faces of the map of a web, or none where a fragment is stuck. A web with a loop fails.
fn embedded(alloc: Global, web: &Web) -> Result<Option<u64>, Fail> {
    if !has_no_loop(web) {
        return Err("a loop")?;
    }
    match try_embed(alloc, web)? {
        Attempt::Flat(map) => Ok(Some(map.faces(alloc)?)),
        Attempt::Stuck(_) => Ok(None),
    }
}

/// The same, of these segments between these nodes.
fn embedded_ends(alloc: Global, nodes: u32, ends: &[(u32, u32)]) -> Result<Option<u64>, Fail> {
    let web = Web::make(nodes, Vec::from_slice(alloc, ends)?)?;
    embedded(alloc, &web)
}

#[test]
fn four_nodes_have_a_flat_map(rt: HostRuntime) -> Result<(), Fail> {
    let k4 = complete(rt.alloc(), 4)?;
    assert_eq!(rt; embedded(rt.alloc(), &k4)?, Some(4));
    Ok(())
}

#[test]
fn five_nodes_have_none(rt: HostRuntime) -> Result<(), Fail> {
    let k5 = complete(rt.alloc(), 5)?;
    assert_eq!(rt; embedded(rt.alloc(), &k5)?, None);
    Ok(())
}

#[test]
fn small_webs(rt: HostRuntime) -> Result<(), Fail> {
    let embeds = |nodes: u32, ends: &[(u32, u32)]| embedded_ends(rt.alloc(), nodes, ends);
    assert_eq!(rt; embeds(0, &[])?, Some(0));
    assert_eq!(rt; embeds(3, &[])?, Some(3));
    assert_eq!(rt; embeds(2, &[(0, 1), (1, 0), (0, 1)])?, Some(3));
    assert_eq!(rt; embeds(4, &[(0, 1), (2, 3)])?, Some(2));
    assert_eq!(rt;
        embeds(5, &[(0, 1), (1, 2), (2, 0), (2, 3), (3, 4), (4, 2)])?,
        Some(3)
    );
    Ok(())
}

#[test]
fn three_against_three(rt: HostRuntime) -> Result<(), Fail> {
    let ends = [
        (0, 3),
        (0, 4),
        (0, 5),
        (1, 3),
        (1, 4),
        (1, 5),
        (2, 3),
        (2, 4),
        (2, 5),
    ];
    assert_eq!(rt; embedded_ends(rt.alloc(), 6, &ends)?, None);
    assert_eq!(rt; embedded_ends(rt.alloc(), 6, &ends[1..])?, Some(4));
    Ok(())
}
