//! The decider on K5, of which one row closes the state without crossings, and its parts on that row.
ghost use Rattle.std.specs.Prelude.{◌≤◌, IfOk};
ghost use Rattle.xn_search.specs.Choice.{IsCountedDrawing};

use super::*;
use crate::frames::Frames;
use crate::lines::Lines;
use crate::programs::Program;
use std::alloc::{AllocError, Global};
use std::test::Fail;
use xn_cutter::Cutter;
use xn_draw::examine;
use xn_graph::{Graph, Web};
use xn_kinds::{Drawing, Evidence, Orders, Row};
use xn_kura::find_kind;
use xn_list::Sequence;
use xn_map::Map;
use xn_plant::{Planarity, Planes};
use xn_search::{Drawn, counted, solve_from};
use xn_sound::laws::rows;
use xn_table::Outcome;
use xn_tree::Given;

/// The edges of K5.
const ENDS: [(u32, u32); 10] = [
    (0, 1),
    (0, 2),
    (0, 3),
    (0, 4),
    (1, 2),
    (1, 3),
    (1, 4),
    (2, 3),
    (2, 4),
    (3, 4),
];

/// The rotation of a drawing in which its edges 0 and 9 cross.
const NEXT: [u32; 24] = [
    6, 22, 21, 14, 8, 16, 4, 20, 0, 19, 12, 18, 3, 17, 10, 23, 11, 7, 5, 15, 13, 1, 2, 9,
];

/// Knows the webs that are subdivisions of K5 or K3,3.
#[derive(Drop)]
struct Known;

impl Planes for Known {
    fn planar(&mut self, alloc: Global, web: &Web) -> Result<Planarity, AllocError> {
        rows();
        match find_kind(alloc, web)? {
            Some(evidence) => Ok(Planarity::Not(evidence)),
            None => Err(AllocError),
        }
    }

    fn untouch(
        &mut self,
        _alloc: Global,
        _graph: &Graph,
        _orders: &Orders,
        _map: Map,
    ) -> Result<Drawing, AllocError> {
        Err(AllocError)
    }

    fn upper(&mut self, _alloc: Global, _graph: &Graph) -> Result<Drawing, AllocError> {
        Err(AllocError)
    }
}

/// A drawing of K5 with one crossing.
fn drawing_of_k5(alloc: Global) -> Result<Drawing, AllocError> {
    let mut lists = Vec::new(alloc);
    for e in 0u32..10 {
        let mut list = Vec::new(alloc);
        if e == 0 || e == 9 {
            list.push(9 - e)?;
        }
        lists.push(list)?;
    }
    Ok(Drawing {
        orders: Orders::new(lists),
        next: Sequence::new(Vec::from_slice(alloc, &NEXT)?),
    })
}

/// That drawing with its crossings counted.
fn first_of_k5(alloc: Global, graph: &Graph) -> Result<Drawn, AllocError>
    ensures { IfOk result (IsCountedDrawing graph.now) }
{
    let drawing = drawing_of_k5(alloc)?;
    match examine(alloc, graph, &drawing) {
        Ok(_) => counted(alloc, graph, drawing),
        Err(_) => Err(AllocError),
    }
}

/// What is proved of K5 within a budget, what was spent, and how many rows the proof has.
fn found(
    alloc: Global,
    budget: u64,
    cutters: &mut Vec<Box<dyn Cutter>>,
) -> Result<(u32, u64, usize), Fail>
    requires { budget ≤ 200000 }
{
    let graph = Graph::make(5, Vec::from_slice(alloc, &ENDS)?)?;
    let first = first_of_k5(alloc, &graph)?;
    let mut decider = ByPrograms::new(alloc, Known, cutters);
    let solved = solve_from(alloc, &graph, first, budget, &mut decider)?;
    Ok((solved.lower, solved.spent, solved.rows.len()))
}

/// A row of all edges of K5 without crossings. Its evidence isn't read.
fn row_of_all(alloc: Global) -> Result<Row, AllocError> {
    let mut edges = Vec::new(alloc);
    let mut lists = Vec::new(alloc);
    for e in 0u32..10 {
        edges.push(e)?;
        lists.push(Vec::new(alloc))?;
    }
    Ok(Row {
        edges: Sequence::new(edges),
        orders: Orders::new(lists),
        evidence: Evidence::Extension {
            list: Sequence::new(Vec::new(alloc)),
        },
    })
}

/// How the program of that row ends where so many crossings are asked for, how many rows bind, and the part
/// of its leaf.
fn solved(alloc: Global, crossings: u32) -> Result<(Outcome, usize, u64), Fail> {
    let graph = Graph::make(5, Vec::from_slice(alloc, &ENDS)?)?;
    let given = Given::empty(alloc, &graph)?;
    let pairs = graph.pairs(alloc)?;
    let mut lines = Lines::new(alloc);
    lines.push(&graph, &row_of_all(alloc)?)?;
    let mut program = Program::new(alloc);
    program.begin(&graph, &given, pairs.as_slice(), &lines)?;
    if !program.add_missed(alloc, &lines)? {
        return Err("no row is missed")?;
    }
    let outcome = program.solve(crossings);
    let binding = program.binding(alloc)?;
    let mut part = 0;
    for (_, times) in program.priced(alloc, 1 << 10)?.as_slice() {
        part = *times;
    }
    // where the value isn't passed the point is read, and no row of the table is missed there
    let is_missed = program.add_missed(alloc, &lines)? || program.has_drifted(&lines);
    if outcome == Outcome::Best && is_missed {
        return Err("a row of the table is missed")?;
    }
    Ok((outcome, binding.len(), part))
}

#[test]
fn one_leaf_closes_k5(rt: HostRuntime) -> Result<(), Fail> {
    let mut cutters: Vec<Box<dyn Cutter>> = Vec::new(rt.alloc());
    assert_eq!(rt; found(rt.alloc(), 10_000, &mut cutters)?, (1, 1, 1));
    assert_eq!(rt; found(rt.alloc(), 0, &mut cutters)?, (0, 0, 0));
    Ok(())
}

#[test]
fn a_program_has_its_least_value(rt: HostRuntime) -> Result<(), Fail> {
    // The 15 independent pairs of K5 have at least one crossing, so a row that is taken once closes the state.
    assert_eq!(rt; solved(rt.alloc(), 1)?, (Outcome::Passed, 1, 1024));
    assert_eq!(rt; solved(rt.alloc(), 2)?, (Outcome::Best, 1, 1024));
    Ok(())
}

#[test]
fn a_row_is_new_once(rt: HostRuntime) -> Result<(), Fail> {
    let alloc = rt.alloc();
    let graph = Graph::make(5, Vec::from_slice(alloc, &ENDS)?)?;
    let mut lines = Lines::new(alloc);
    lines.push(&graph, &row_of_all(alloc)?)?;
    assert!(rt; lines.is_last_new() && lines.at(0).len() == 15);
    lines.push(&graph, &row_of_all(alloc)?)?;
    assert!(rt; !lines.is_last_new());
    lines.pop();
    assert_eq!(rt; lines.len(), 1);
    Ok(())
}

#[test]
fn frames_are_taken_in_preorder(rt: HostRuntime) -> Result<(), Fail> {
    let alloc = rt.alloc();
    let mut frames = Frames::new(alloc);
    assert!(rt; frames.take(alloc, 1)?.is_empty());
    frames.push(&[4, 7], 2)?;
    assert_eq!(rt; frames.take(alloc, 1)?.as_slice(), [4, 7].as_slice());
    frames.push(&[9], 1)?;
    assert_eq!(rt; frames.take(alloc, 1)?.as_slice(), [9].as_slice());
    assert_eq!(rt; frames.take(alloc, 1)?.as_slice(), [4, 7].as_slice());
    assert!(rt; frames.take(alloc, 1)?.is_empty());
    Ok(())
}
