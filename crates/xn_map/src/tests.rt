//! Stated maps: the drawing of K4, the same web on a torus, two lone nodes; and lists that are no
//! rotation.
use super::*;
use std::alloc::Global;
use std::test::Fail;
use xn_graph::{Euler, Web};

mod changes;

/// The map of these nodes, ends and successors.
fn map(alloc: Global, nodes: u32, ends: &[(u32, u32)], next: &[u32]) -> Result<Map, Fail> {
    let web = Web::make(nodes, Vec::from_slice(alloc, ends)?)?;
    Ok(Map::make(alloc, web, next)?)
}

const K4: [(u32, u32); 6] = [(0, 1), (0, 2), (0, 3), (1, 2), (1, 3), (2, 3)];

const FLAT: [u32; 12] = [2, 8, 4, 7, 0, 11, 1, 10, 6, 5, 3, 9];

const ON_TORUS: [u32; 12] = [2, 8, 4, 7, 0, 9, 1, 10, 6, 11, 3, 5];

#[test]
fn k4_in_the_plane_and_on_a_torus(rt: HostRuntime) -> Result<(), Fail> {
    for (next, f, flat) in [(FLAT, 4, true), (ON_TORUS, 2, false)] {
        let k4 = map(rt.alloc(), 4, &K4, &next)?;
        assert_eq!(rt; k4.faces(rt.alloc())?, f);
        assert_eq!(rt; k4.parts(rt.alloc())?, 1);
        assert_eq!(rt;
            k4.euler(rt.alloc())?,
            Euler {
                v: 4,
                e: 6,
                f,
                c: 1
            }
        );
        assert_eq!(rt; k4.is_flat(rt.alloc())?, flat);
    }
    Ok(())
}

#[test]
fn eleven_successors_are_too_few(rt: HostRuntime) -> Result<(), Fail> {
    let web = Web::make(4, Vec::from_slice(rt.alloc(), &K4)?)?;
    assert_eq!(rt;
        Map::make(rt.alloc(), web, &FLAT[..11]).err(),
        Some(MapErr::Length)
    );
    Ok(())
}

#[test]
fn two_lone_nodes(rt: HostRuntime) -> Result<(), Fail> {
    let lone = map(rt.alloc(), 2, &[], &[])?;
    assert_eq!(rt; lone.faces(rt.alloc())?, 2);
    assert_eq!(rt; lone.parts(rt.alloc())?, 2);
    assert!(rt; lone.web().nodes() == 2);
    assert!(rt; !lone.joined(rt.alloc(), 0, 1)?);
    assert!(rt; lone.joined(rt.alloc(), 1, 1)?);
    assert!(rt; lone.is_flat(rt.alloc())?);
    Ok(())
}

// The first dart that is led wrong goes before the first that is apart.
#[test]
fn lists_that_are_no_rotation(rt: HostRuntime) -> Result<(), Fail> {
    let ends = [(0, 1), (0, 1)];
    let rows = [
        ([2, 3, 0, 1], None),
        ([4, 3, 0, 1], Some(MapErr::Rotation(0))),
        ([2, 2, 0, 1], Some(MapErr::Rotation(1))),
        ([2, 3, 0, 3], Some(MapErr::Rotation(3))),
        ([0, 3, 2, 1], Some(MapErr::Rotation(2))),
        ([0, 3, 2, 4], Some(MapErr::Rotation(3))),
    ];
    for (next, refusal) in rows {
        let web = Web::make(2, Vec::from_slice(rt.alloc(), &ends)?)?;
        assert_eq!(rt; Map::make(rt.alloc(), web, &next).err(), refusal);
    }
    Ok(())
}

#[test]
fn refusals_have_texts(rt: HostRuntime) -> Result<(), Fail> {
    let rows = [
        (MapErr::Length, "not two successors for each segment"),
        (MapErr::Rotation(7), "no rotation at dart 7"),
        (MapErr::Memory, "no memory"),
    ];
    for (error, text) in rows {
        assert_eq!(rt; format!(in rt.alloc(); "{error}")?.as_str(), text);
    }
    Ok(())
}

#[test]
fn corners_of_one_face(rt: HostRuntime) -> Result<(), Fail> {
    let k4 = map(rt.alloc(), 4, &K4, &FLAT)?;
    let rows = [
        (0, 3, true),
        (0, 6, true),
        (0, 1, false),
        (0, 2, false),
        (7, 7, true),
    ];
    for (d, e, same) in rows {
        let darts = 2 * k4.web().segments();
        assert!(rt; d < darts && e < darts);
        assert_eq!(rt;
            k4.same_face(Corner::After(d), Corner::After(e)),
            same,
            "{d} and {e}"
        );
    }
    Ok(())
}

#[test]
fn corners_of_lone_nodes(rt: HostRuntime) -> Result<(), Fail> {
    let web = Web::make(2, Vec::new(rt.alloc()))?;
    let lone = Map::make(rt.alloc(), web, &[])?;
    assert!(rt; lone.same_face(Corner::Lone(0), Corner::Lone(0)));
    assert!(rt; !lone.same_face(Corner::Lone(0), Corner::Lone(1)));
    Ok(())
}
