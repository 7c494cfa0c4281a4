ghost use Rattle.std.specs.Prelude.{◌≡◌, ◌≢◌, ℕ, ◌+◌, ◌*◌, ◌^◌, ◌<◌, ◌≤◌, ◌↔◌, IfNone, IfOk, IfSome, IsErrOf, IsTrue, length};
ghost use Rattle.xn_model.specs.Lists.{at};
ghost use Rattle.xn_model.specs.Map.{Joined, tail_of};
ghost use Rattle.xn_graph.specs.Counts.{euler_of};
ghost use Rattle.xn_map.specs.Anchored.{HasNoDart, IsDartOf};
ghost use Rattle.xn_map.specs.Corners.{InOneFace, IsCorner};
ghost use Rattle.xn_map.specs.Listed.{IsFlatListed, IsListedMap, components_of, faces_of, map_of, sum_of};
ghost use Rattle.xn_map.specs.Rotation.{IsRotationFlaw};
ghost use Rattle.xn_map.specs.declared.maps.MapErr.TheVariants.{Memory};

mod changes;
mod dividing;
mod passing;
mod splitting;

use crate::anchored::Anchored;
use crate::components::{component_count, in_one_component};
use crate::corners::Corner;
use crate::faces::{face_cycle_count, in_one_face};
use crate::lone::lone_count;
use crate::rotation::{rings_of, rotation_flaw};
use std::alloc::{AllocError, Global};
use std::marker::Model;
use thiserror::Error;
use xn_graph::{Euler, Web};
use xn_ring::Rings;

/// Why a web and a list of successors are no map: the first cause in this order.
#[derive(Clone, Copy, Debug, PartialEq, Eq, Error)]
pub enum MapErr {
    /// The list hasn't two entries for each segment.
    #[error("not two successors for each segment")]
    Length,
    /// The least dart whose successor is no dart, is at another node, or is that of a smaller dart.
    /// If there is none, the least dart that isn't in the ring of the least dart at its node.
    #[error("no rotation at dart {0}")]
    Rotation(u32),
    /// There is no memory.
    #[error("no memory")]
    Memory,
}

impl From<AllocError> for MapErr {
    ghost from_gives = { λ _ e. e ≡ Memory };

    fn from(_error: AllocError) -> MapErr {
        MapErr::Memory
    }
}

/// A map: a web with a rotation at each node (a rotation system).
///
/// Segment s has the dart 2s at its first end and the dart 2s + 1 at its second. `next` turns
/// counterclockwise round a node, once through all its darts. Contracts see a map as its web and
/// the list of the successors.
#[derive(Drop)]
pub struct Map {
    web: Anchored,
    rings: Rings,
}

impl Model for Map {
    ghost use Rattle.xn_map.specs.Listed.{IsListedMap, ListedMap, map_of};

    ghost Value = { ListedMap };

    ghost view = { λ m. map_of m.web m.rings };

    ghost invariant = { λ m. IsListedMap (map_of m.web m.rings) };
}

impl Map {
    /// The map of a web in which dart d is followed by entry d of the list.
    pub fn make(alloc: Global, web: Web, next: &[u32]) -> Result<Map, MapErr>
        ensures ok { IfOk result (λ m. m ≡ map_of web next.now) }
        ensures is_map { IfOk result IsListedMap }
        ensures length { IsErrOf result MapErr.Length ↔ (length next.now ≢ 2 * length web.ends) }
        ensures rotation { (d : ℕ) → IsErrOf result (MapErr.Rotation d) →
            (length next.now ≡ 2 * length web.ends) × IsRotationFlaw web.ends (at next.now) d }
    {
        if next.len() != 2 * web.segments() as usize {
            return Err(MapErr::Length);
        }
        if let Some(d) = rotation_flaw(alloc, &web, next)? {
            return Err(MapErr::Rotation(d));
        }
        let rings = rings_of(alloc, next)?;
        let web = Anchored::make(alloc, web)?;
        Ok(Map { web, rings })
    }

    /// The web.
    pub fn web(&self) -> &Web
        ensures value { result.now ≡ self.now.web }
        ensures is_map { IsListedMap self.now }
    {
        self.web.web()
    }

    /// The next dart round the node.
    pub fn next(&self, d: u32) -> u32
        requires { d < length self.now.next }
        ensures value { result ≡ at self.now.next d }
        ensures dart { result < length self.now.next }
    {
        self.rings.next(d)
    }

    /// The node of a dart.
    pub fn tail(&self, d: u32) -> u32
        requires { d < length self.now.next }
        ensures value { result ≡ tail_of self.now.web.ends d }
        ensures node { result < self.now.web.nodes }
    {
        self.web.web().tail(d)
    }

    /// The number of faces: of the cycles of the walk from a dart to the successor of its reverse,
    /// and of the nodes without darts.
    pub fn faces(&self, alloc: Global) -> Result<u64, AllocError>
        ensures count { IfOk result (λ f. f ≡ faces_of self.now) }
        ensures few { IfOk result (λ f. f ≤ 3 * 2 ^ 30) }
    {
        let cycles = face_cycle_count(alloc, &self.rings)?;
        let lone = lone_count(&self.web);
        Ok(cycles + lone)
    }

    /// The number of connected components.
    pub fn parts(&self, alloc: Global) -> Result<u64, AllocError>
        ensures count { IfOk result (λ c. c ≡ components_of self.now) }
        ensures few { IfOk result (λ c. c ≤ 2 ^ 30) }
    {
        component_count(alloc, self.web.web())
    }

    /// A dart of a node, if it has one.
    pub fn dart_of(&self, v: u32) -> Option<u32>
        ensures map { IsListedMap self.now }
        ensures some { IfSome result (λ d. IsDartOf self.now.web.ends v d) }
        ensures none { IfNone result (HasNoDart self.now.web.ends v) }
    {
        self.web.dart_of(v)
    }

    /// The numbers of nodes, segments, faces and components (Euler).
    pub fn euler(&self, alloc: Global) -> Result<Euler, AllocError>
        ensures counts { IfOk result (λ counts. counts ≡ euler_of self.now.web (at self.now.next)) }
        ensures few { IfOk result (λ counts. sum_of counts ≤ 7 * 2 ^ 30) }
    {
        let f = self.faces(alloc)?;
        let c = self.parts(alloc)?;
        Ok(Euler {
            v: u64::from(self.web.nodes()),
            e: u64::from(self.web.segments()),
            f,
            c,
        })
    }

    /// Whether the map has genus zero.
    pub fn is_flat(&self, alloc: Global) -> Result<bool, AllocError>
        ensures { IfOk result (λ flat. IsTrue flat ↔ IsFlatListed self.now) }
    {
        let counts = self.euler(alloc)?;
        Ok(counts.v + counts.f == 2 * counts.c + counts.e)
    }

    /// Whether a walk of segments joins two nodes.
    pub fn joined(&self, alloc: Global, u: u32, v: u32) -> Result<bool, AllocError>
        requires u_in { u < self.now.web.nodes }
        requires v_in { v < self.now.web.nodes }
        ensures { IfOk result (λ joined. IsTrue joined ↔ Joined self.now.web.ends u v) }
    {
        in_one_component(alloc, self.web.web(), u, v)
    }

    /// Whether two corners lie in one face. It takes no memory.
    pub fn same_face(&self, a: Corner, b: Corner) -> bool
        requires a_in { IsCorner self.now a }
        requires b_in { IsCorner self.now b }
        ensures { IsTrue result ↔ InOneFace (at self.now.next) a b }
    {
        match (a, b) {
            (Corner::After(d), Corner::After(e)) => {
                let (start, sought) = (self.next(d), self.next(e));
                in_one_face(&self.rings, start, sought)
            }
            (Corner::Lone(u), Corner::Lone(v)) => u == v,
            (Corner::After(_), Corner::Lone(_)) | (Corner::Lone(_), Corner::After(_)) => false,
        }
    }
}
