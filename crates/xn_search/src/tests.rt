//! The search of K5 by planting: it branches on pairs, and where none is open the row of all edges closes the state.
ghost use Rattle.std.specs.Prelude.{◌≤◌};

use super::*;
use std::alloc::{AllocError, Global};
use std::test::Fail;
use xn_draw::examine;
use xn_graph::{Graph, Web};
use xn_kinds::{Drawing, Orders};
use xn_kura::find_kind;
use xn_list::Sequence;
use xn_map::Map;
use xn_plant::{Planarity, Planes};
use xn_sound::laws::rows;

/// The edges of K5.
const ENDS: [(u32, u32); 10] = [
    (0, 1),
    (0, 2),
    (0, 3),
    (0, 4),
    (1, 2),
    (1, 3),
    (1, 4),
    (2, 3),
    (2, 4),
    (3, 4),
];

/// The rotation of a drawing in which its edges 0 and 9 cross.
const NEXT: [u32; 24] = [
    6, 22, 21, 14, 8, 16, 4, 20, 0, 19, 12, 18, 3, 17, 10, 23, 11, 7, 5, 15, 13, 1, 2, 9,
];

/// Knows the webs that are subdivisions of K5 or K3,3, and a drawing of K5.
#[derive(Drop)]
struct Known;

impl Planes for Known {
    fn planar(&mut self, alloc: Global, web: &Web) -> Result<Planarity, AllocError> {
        rows();
        match find_kind(alloc, web)? {
            Some(evidence) => Ok(Planarity::Not(evidence)),
            None => Err(AllocError),
        }
    }

    fn untouch(
        &mut self,
        _alloc: Global,
        _graph: &Graph,
        _orders: &Orders,
        _map: Map,
    ) -> Result<Drawing, AllocError> {
        Err(AllocError)
    }

    fn upper(&mut self, alloc: Global, graph: &Graph) -> Result<Drawing, AllocError> {
        let drawing = drawing_of_k5(alloc)?;
        match examine(alloc, graph, &drawing) {
            Ok(_) => Ok(drawing),
            Err(_) => Err(AllocError),
        }
    }
}

/// A drawing of K5 with one crossing.
fn drawing_of_k5(alloc: Global) -> Result<Drawing, AllocError> {
    let mut lists = Vec::new(alloc);
    for e in 0u32..10 {
        let mut list = Vec::new(alloc);
        if e == 0 || e == 9 {
            list.push(9 - e)?;
        }
        lists.push(list)?;
    }
    Ok(Drawing {
        orders: Orders::new(lists),
        next: Sequence::new(Vec::from_slice(alloc, &NEXT)?),
    })
}

/// What is proved of K5 within a budget, what was spent, and how many rows and nodes the proof has.
fn found(alloc: Global, budget: u64) -> Result<(u32, u64, usize, usize), Fail>
    requires { budget ≤ 200000 }
{
    let graph = Graph::make(5, Vec::from_slice(alloc, &ENDS)?)?;
    let mut decider = ByPlanting { planes: Known };
    let solved = solve(alloc, &graph, budget, &mut Known, &mut decider)?;
    Ok((
        solved.lower,
        solved.spent,
        solved.rows.len(),
        solved.tree.len(),
    ))
}

#[test]
fn k5_has_one_crossing(rt: HostRuntime) -> Result<(), Fail> {
    assert_eq!(rt; found(rt.alloc(), 10_000)?, (1, 31, 1, 31));
    assert_eq!(rt; found(rt.alloc(), 31)?, (1, 31, 1, 31));
    Ok(())
}

#[test]
fn a_budget_is_spent(rt: HostRuntime) -> Result<(), Fail> {
    assert_eq!(rt; found(rt.alloc(), 30)?, (0, 30, 0, 1));
    assert_eq!(rt; found(rt.alloc(), 0)?, (0, 0, 0, 1));
    Ok(())
}
