// Edges that come in.
ghost use Rattle.std.specs.Prelude.{◌≡◌, ◌+◌, ◌^◌, ◌<◌, ◌≤◌, false, OnErr, OnOk, length};
ghost use Rattle.xn_model.specs.Graph.{ends_at};
ghost use Rattle.xn_model.specs.Lists.{has};
ghost use Rattle.xn_map.specs.Changes.{node_of};
ghost use Rattle.xn_map.specs.Corners.{IsCorner};
ghost use Rattle.xn_insert.specs.Calls.{IsInserted};
ghost use Rattle.xn_insert.specs.ListedLoose.{IsLooseOf, edges_in};
ghost use Rattle.xn_insert.specs.Routed.{HasNoRoute, IsLeastRoute};

use crate::growing::{copied, cut_walks, moved, on_of, step_over};
use crate::loose::Loose;
use crate::routes::{Route, least_route};
use std::alloc::{AllocError, Global};
use xn_graph::Graph;
use xn_map::{Corner, Map};

impl Loose {
    /// Lets an edge come in along a route that crosses as few segments as can be, with a crossing for each of them, or
    /// between two components, with none. Where no walk met a node twice, none does then.
    ///
    /// The route is found by a search in breadth, in which each face and each dart is met once. After want of memory all is
    /// as before.
    pub fn insert(&mut self, alloc: Global, graph: &Graph, e: u32) -> Result<(), AllocError>
        requires loose { IsLooseOf graph.now self.old }
        requires edge { e < length graph.now.ends }
        requires new { has (edges_in self.old) e ≡ false }
        requires few { self.old.map.web.nodes ≤ self.old.nodes + 2 ^ 24 }
        ensures ok { OnOk result (IsInserted graph.now e self.old self.new) }
        ensures err { OnErr result (self.new ≡ self.old) }
    {
        let (u, v) = graph.end(e);
        let _web = self.map.web();
        match least_route(alloc, &self.map, u, v)? {
            Some(route) => self.come_in(alloc, graph, e, &route),
            None => self.join(alloc, graph, e),
        }
    }

    // Lets an edge come in along a least route.
    fn come_in(
        &mut self,
        alloc: Global,
        graph: &Graph,
        e: u32,
        route: &Route,
    ) -> Result<(), AllocError>
        requires loose { IsLooseOf graph.now self.old }
        requires edge { e < length graph.now.ends }
        requires new { has (edges_in self.old) e ≡ false }
        requires few { self.old.map.web.nodes ≤ self.old.nodes + 2 ^ 24 }
        requires route { let p = ends_at graph.now.ends e in IsLeastRoute self.old.map p.0 p.1 route.now.from route.now.darts.items route.now.to }
        ensures ok { OnOk result (IsInserted graph.now e self.old self.new) }
        ensures err { OnErr result (self.new ≡ self.old) }
    {
        let _nodes = graph.nodes();
        let mut map = copied(alloc, &self.map)?;
        let mut cuts = vec![in alloc; 0; map.web().segments() as usize]?;
        let mut own = Vec::new(alloc);
        let (mut from, mut to) = (route.from, route.to);
        for d in &route.darts {
            let last = map.web().segments();
            step_over(&mut map, from, *d)?;
            cuts[(*d / 2) as usize] = last;
            own.push(2 * last + 2)?;
            to = moved(last, *d / 2, to);
            from = on_of(last, *d);
        }
        own.push(2 * map.web().segments())?;
        map.add_edge(Corner::After(from), Corner::After(to))?;
        let walks = cut_walks(alloc, &self.walks, &cuts, e, own)?;
        self.map = map;
        self.walks = walks;
        Ok(())
    }

    // Lets an edge come in between two components.
    fn join(&mut self, alloc: Global, graph: &Graph, e: u32) -> Result<(), AllocError>
        requires loose { IsLooseOf graph.now self.old }
        requires edge { e < length graph.now.ends }
        requires new { has (edges_in self.old) e ≡ false }
        requires few { self.old.map.web.nodes ≤ self.old.nodes + 2 ^ 24 }
        requires apart { let p = ends_at graph.now.ends e in HasNoRoute self.old.map p.0 p.1 }
        ensures ok { OnOk result (IsInserted graph.now e self.old self.new) }
        ensures err { OnErr result (self.new ≡ self.old) }
    {
        let (u, v) = graph.end(e);
        let own = [2 * self.map.web().segments()].to_vec(alloc)?;
        let (from, to) = (corner_of(&self.map, u), corner_of(&self.map, v));
        self.map.add_edge(from, to)?;
        // it is a map still
        self.map.web();
        self.walks.put(e, own);
        Ok(())
    }
}

// A corner of a node.
fn corner_of(map: &Map, v: u32) -> Corner
    requires { v < map.now.web.nodes }
    ensures corner { IsCorner map.now result }
    ensures node { node_of map.now result ≡ v }
{
    match map.dart_of(v) {
        Some(d) => Corner::After(d),
        None => Corner::Lone(v),
    }
}
