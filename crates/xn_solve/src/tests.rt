//! Searches by planting alone: the numbers of nodes of round 1, budgets, later rounds, and a round that finds a better
//! drawing.
ghost use Rattle.std.specs.Prelude.{◌≤◌};

use super::*;
use std::alloc::{AllocError, Global};
use std::test::Fail;
use xn_draw::examine;
use xn_graph::{Graph, Web};
use xn_kinds::{Drawing, Orders};
use xn_list::Sequence;
use xn_map::Map;
use xn_plant::{Planarity, Planes};
use xn_search::ByPlanting;

mod cutting;

/// The edges of K4.
const K4: [(u32, u32); 6] = [(0, 1), (0, 2), (0, 3), (1, 2), (1, 3), (2, 3)];

/// The edges of K5.
const K5: [(u32, u32); 10] = [
    (0, 1),
    (0, 2),
    (0, 3),
    (0, 4),
    (1, 2),
    (1, 3),
    (1, 4),
    (2, 3),
    (2, 4),
    (3, 4),
];

/// The edges of K3,3.
const K33: [(u32, u32); 9] = [
    (0, 3),
    (0, 4),
    (0, 5),
    (1, 3),
    (1, 4),
    (1, 5),
    (2, 3),
    (2, 4),
    (2, 5),
];

/// The edges of K3,4.
const K34: [(u32, u32); 12] = [
    (0, 3),
    (0, 4),
    (0, 5),
    (0, 6),
    (1, 3),
    (1, 4),
    (1, 5),
    (1, 6),
    (2, 3),
    (2, 4),
    (2, 5),
    (2, 6),
];

/// The edges of K6.
const K6: [(u32, u32); 15] = [
    (0, 1),
    (0, 2),
    (0, 3),
    (0, 4),
    (0, 5),
    (1, 2),
    (1, 3),
    (1, 4),
    (1, 5),
    (2, 3),
    (2, 4),
    (2, 5),
    (3, 4),
    (3, 5),
    (4, 5),
];

/// The rotation of K5 drawn as a pentagon and its five diagonals, each of which crosses two others.
const PENTAGON: [u32; 40] = [
    2, 16, 8, 25, 26, 19, 20, 17, 14, 27, 28, 35, 36, 23, 0, 29, 18, 30, 24, 6, 5, 33, 34, 31, 1,
    4, 3, 10, 9, 37, 32, 38, 7, 22, 21, 12, 11, 39, 13, 15,
];

/// Tests webs as the search does, and begins with the pentagon where a graph has the edges of K5.
#[derive(Drop)]
struct Pentagon;

impl Planes for Pentagon {
    fn planar(&mut self, alloc: Global, web: &Web) -> Result<Planarity, AllocError> {
        let mut maps = Maps;
        maps.planar(alloc, web)
    }

    fn untouch(
        &mut self,
        alloc: Global,
        graph: &Graph,
        orders: &Orders,
        map: Map,
    ) -> Result<Drawing, AllocError> {
        let mut maps = Maps;
        maps.untouch(alloc, graph, orders, map)
    }

    fn upper(&mut self, alloc: Global, graph: &Graph) -> Result<Drawing, AllocError> {
        let drawing = pentagon_of_k5(alloc)?;
        match examine(alloc, graph, &drawing) {
            Ok(_) => Ok(drawing),
            Err(_) => {
                let mut maps = Maps;
                maps.upper(alloc, graph)
            }
        }
    }
}

/// K5 drawn as a pentagon and its diagonals.
fn pentagon_of_k5(alloc: Global) -> Result<Drawing, AllocError> {
    let mut lists = Vec::new(alloc);
    for (first, second) in [
        (0u32, 0u32),
        (6, 5),
        (6, 8),
        (0, 0),
        (0, 0),
        (1, 8),
        (1, 2),
        (0, 0),
        (5, 2),
        (0, 0),
    ] {
        let mut list = Vec::new(alloc);
        if first != second {
            list.push(first)?;
            list.push(second)?;
        }
        lists.push(list)?;
    }
    Ok(Drawing {
        orders: Orders::new(lists),
        next: Sequence::new(Vec::from_slice(alloc, &PENTAGON)?),
    })
}

/// What planting alone proves of a graph within a budget: the two bounds, and what was spent.
fn planted<P: Planes>(
    alloc: Global,
    nodes: u32,
    ends: &[(u32, u32)],
    budget: u64,
    planes: &mut P,
) -> Result<(u32, u32, u64), Fail>
    requires { budget ≤ 200000 }
{
    let graph = Graph::make(nodes, Vec::from_slice(alloc, ends)?)?;
    let mut decider = ByPlanting { planes: Maps };
    let solved = xn_search::solve(alloc, &graph, budget, planes, &mut decider)?;
    let answer = answer_of(alloc, &graph, 0, budget, solved)?;
    Ok((answer.lower, answer.upper, answer.spent))
}

#[test]
fn a_flat_graph_takes_no_budget(rt: HostRuntime) -> Result<(), Fail> {
    assert_eq!(rt; planted(rt.alloc(), 4, &K4, 0, &mut Maps)?, (0, 0, 0));
    Ok(())
}

#[test]
fn k5_has_one_crossing(rt: HostRuntime) -> Result<(), Fail> {
    assert_eq!(rt; planted(rt.alloc(), 5, &K5, 10_000, &mut Maps)?, (1, 1, 31));
    assert_eq!(rt; planted(rt.alloc(), 5, &K5, 31, &mut Maps)?, (1, 1, 31));
    assert_eq!(rt; planted(rt.alloc(), 5, &K5, 0, &mut Maps)?, (0, 1, 0));
    Ok(())
}

#[test]
fn k33_has_one_crossing(rt: HostRuntime) -> Result<(), Fail> {
    assert_eq!(rt; planted(rt.alloc(), 6, &K33, 37, &mut Maps)?, (1, 1, 37));
    assert_eq!(rt; planted(rt.alloc(), 6, &K33, 36, &mut Maps)?, (0, 1, 36));
    Ok(())
}

#[test]
fn a_round_finds_a_better_drawing(rt: HostRuntime) -> Result<(), Fail> {
    // Round 1 has 31 nodes; round 2 opens fifteen pairs and a leaf, and finds a drawing where the last pair crosses.
    assert_eq!(rt;
        planted(rt.alloc(), 5, &K5, 10_000, &mut Pentagon)?,
        (1, 1, 48)
    );
    Ok(())
}

#[test]
fn later_rounds_plant_crossings_and_place_edges(rt: HostRuntime) -> Result<(), Fail> {
    let (lower, upper, _) = planted(rt.alloc(), 7, &K34, 10_000, &mut Pentagon)?;
    assert_eq!(rt; (lower, upper), (2, 2));
    let (lower, upper, _) = planted(rt.alloc(), 6, &K6, 10_000, &mut Pentagon)?;
    assert_eq!(rt; (lower, upper), (3, 3));
    Ok(())
}
