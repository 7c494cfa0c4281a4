// The planarity test, the drawing apart of edges that touch, and a first drawing, as the search asks for them.
use std::alloc::{AllocError, Global};
use xn_graph::{Graph, Web};
use xn_kinds::{Drawing, Orders};
use xn_map::Map;
use xn_planar::planar;
use xn_plant::{Planarity, Planes};
use xn_simple::untouch;
use xn_upper::upper;

/// The most edges of a graph whose first drawing is tried many times.
const FEW_EDGES: u32 = 40;
/// How often it is tried then.
const MANY_TRIES: u32 = 60;
/// How often it is tried in a graph with more edges.
const SOME_TRIES: u32 = 2;

/// Tests webs by `planar`, and draws edges that touch apart by `untouch`.
#[derive(Clone, Copy, Debug, Drop)]
pub struct Maps;

impl Planes for Maps {
    fn planar(&mut self, alloc: Global, web: &Web) -> Result<Planarity, AllocError> {
        match planar(alloc, web)? {
            xn_planar::Planarity::Flat(map) => Ok(Planarity::Flat(map)),
            xn_planar::Planarity::Not(evidence) => Ok(Planarity::Not(evidence)),
        }
    }

    fn untouch(
        &mut self,
        alloc: Global,
        graph: &Graph,
        orders: &Orders,
        map: Map,
    ) -> Result<Drawing, AllocError> {
        let drawing = untouch(alloc, graph, orders, map)?;
        Ok(drawing)
    }

    fn upper(&mut self, alloc: Global, graph: &Graph) -> Result<Drawing, AllocError> {
        let tries = if graph.edges() <= FEW_EDGES {
            MANY_TRIES
        } else {
            SOME_TRIES
        };
        upper(alloc, graph, tries)
    }
}
