// Loose drawings are made simple and stay loose drawings, with an edge less or with all of them.
ghost use Rattle.std.specs.Prelude.{◌≡◌, ◌*◌, ◌<◌, IfOk, length};
ghost use Rattle.std.specs.List.{range_with_len};
ghost use Rattle.xn_model.specs.Graph.{Graph};
ghost use Rattle.xn_model.specs.Lists.{at};
ghost use Rattle.xn_model.specs.Map.{IsMap};
ghost use Rattle.xn_map.specs.Listed.{map_of};
ghost use Rattle.xn_insert.specs.ListedLoose.{IsLooseOf, edges_in};
ghost use Rattle.xn_simple.specs.LaidAgain.{IsLaidAgain, IsLaidOf, all_but_edge, taken_out};
ghost use Rattle.xn_simple.specs.Tangle.{IsTangle, lists_in};
ghost use Rattle.xn_simple.specs.Untangling.{IsUntangled};

use crate::simplifying::tangle_of;
use crate::tangle::Tangle;
use std::alloc::{AllocError, Global};
use xn_graph::{Graph, Web};
use xn_insert::Loose;
use xn_map::{Map, MapErr};
use xn_orders::planarise;

/// A simple drawing of the edges that are in, as a loose one, with no more crossings: so with at most 499,500. It fails only for
/// want of memory.
pub fn laid_again(alloc: Global, graph: &Graph, loose: Loose) -> Result<Loose, AllocError>
    requires { IsLooseOf graph.now loose }
    ensures { IfOk result (IsLaidAgain graph.now (edges_in loose) loose) }
{
    let (map, walks) = loose.into_parts();
    let tangle = tangle_of(alloc, graph, map, walks)?;
    let again = laid(alloc, graph, tangle)?;
    Ok(again)
}

/// The same without an edge.
pub fn without(alloc: Global, graph: &Graph, loose: Loose, e: u32) -> Result<Loose, AllocError>
    requires loose { IsLooseOf graph.now loose }
    requires edge { e < length graph.now.ends }
    ensures { IfOk result (IsLaidAgain graph.now (all_but_edge e (edges_in loose)) loose) }
{
    let (map, walks) = loose.into_parts();
    let tangle = tangle_of(alloc, graph, map, walks)?;
    let fewer = tangle.take_out(alloc, e)?;
    let rest = laid(alloc, graph, fewer)?;
    Ok(rest)
}

// The loose drawing that a tangle is, once no step is left.
fn laid(alloc: Global, graph: &Graph, tangle: Tangle) -> Result<Loose, AllocError>
    requires { IsTangle graph.now (lists_in tangle) }
    ensures { IfOk result (IsLaidOf graph.now (lists_in tangle)) }
{
    let mut now = tangle;
    now.untangle(alloc, graph)?;
    let laid = now.loose(alloc, graph)?;
    Ok(laid)
}

impl Tangle {
    // The tangle without an edge.
    fn take_out(self, alloc: Global, e: u32) -> Result<Tangle, AllocError>
        requires { e < length self.walks.items }
        ensures { IfOk result (λ t. lists_in t ≡ taken_out (lists_in self) e) }
    {
        let mut now = self;
        now.edges = all_but(alloc, &now.edges, e)?;
        now.walks[e as usize] = Vec::new(alloc);
        Ok(now)
    }

    // The loose drawing that the walks are.
    fn loose(&self, alloc: Global, graph: &Graph) -> Result<Loose, AllocError>
        requires { IsUntangled graph.now (lists_in self.now) }
        ensures { IfOk result (IsLaidOf graph.now (lists_in self.now)) }
    {
        let edges = self.edges.as_slice();
        let numbers = numbers_below(alloc, graph.edges())?;
        let drawing = self.read(alloc, &numbers)?;
        let web = planarise(alloc, graph, edges, &drawing.orders)?;
        let map = map_turned(alloc, web, drawing.next.as_slice())?;
        let loose = Loose::start(alloc, graph, edges, &drawing.orders, map)?;
        Ok(loose)
    }
}

// The numbers below a bound.
fn numbers_below(alloc: Global, count: u32) -> Result<Vec<u32>, AllocError>
    ensures { IfOk result (λ numbers. numbers.items ≡ range_with_len 0 count) }
{
    (0..count).collect(alloc)
}

// The edges but one.
fn all_but(alloc: Global, edges: &[u32], e: u32) -> Result<Vec<u32>, AllocError>
    ensures { IfOk result (λ rest. rest.items ≡ all_but_edge e edges.now) }
{
    let mut rest = Vec::new(alloc);
    for x in edges {
        if *x != e {
            rest.push(*x)?;
        }
    }
    Ok(rest)
}

// The map of a web with these turns.
fn map_turned(alloc: Global, web: Web, next: &[u32]) -> Result<Map, AllocError>
    requires size { length next.now ≡ 2 * length web.ends }
    requires is_map { IsMap web.nodes web.ends (at next.now) }
    ensures { IfOk result (λ map. map ≡ map_of web next.now) }
{
    match Map::make(alloc, web, next) {
        Ok(map) => Ok(map),
        Err(MapErr::Memory) => Err(AllocError),
        Err(MapErr::Length) => unreachable!(),
        Err(MapErr::Rotation(_)) => unreachable!(),
    }
}
