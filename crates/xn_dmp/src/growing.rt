// A flat map that grows by one segment of a web after another.
ghost use Rattle.std.specs.Prelude.{◌≡◌, ℕ, ◌+◌, ◌*◌, ◌^◌, ◌<◌, ◌≤◌, ◌||◌, true, false, IfNone, IfOk, IfSome, OnOk, length};
ghost use Rattle.std.specs.Bool.{OnTrue};
ghost use Rattle.std.specs.List.Sorted.{IsStrictlyIncreasing};
ghost use Rattle.xn_model.specs.Graph.{HasNoLoop, ends_at};
ghost use Rattle.xn_model.specs.Insertion.{GrowsFromFirst, is_old};
ghost use Rattle.xn_model.specs.Lists.{at, has};
ghost use Rattle.xn_model.specs.Map.{tail_of};
ghost use Rattle.xn_graph.specs.Limits.{HasNodes};
ghost use Rattle.xn_map.specs.Anchored.{IsDartOf};
ghost use Rattle.xn_map.specs.Corners.{IsCorner};
ghost use Rattle.xn_map.specs.Listed.{IsListedMap};
ghost use Rattle.xn_map.specs.Marks.{is_marked};
ghost use Rattle.xn_components.specs.Incidence.{IsIncidence};
ghost use Rattle.xn_dmp.specs.Fragments.{IsCutOff};
ghost use Rattle.xn_dmp.specs.Growing.{Grows, IsBegun, IsCornerAt, IsGrown, IsNext, MayJoin, MayPlace, Reorders};
ghost use Rattle.xn_dmp.specs.Sharing.{NoFaceFrom};

use crate::sharing::{common_face, corner_in};
use std::alloc::{AllocError, Global};
use std::marker::Model;
use xn_components::{Incidence, rearranged, tail};
use xn_graph::Web;
use xn_map::{Corner, Map};

/// A flat map of all nodes and of the segments that are placed, in one part and in the order in which they came, and marks of
/// those that may still be placed.
#[derive(Drop)]
pub struct Growth<'a> {
    web: &'a Web,
    darts: &'a Incidence,
    map: Map,
    placed: Vec<u32>,
    free: Vec<bool>,
}

impl<'a> Model for Growth<'a> {
    ghost use Rattle.xn_dmp.specs.Growing.{Grown, IsGrown, grown_of};
    ghost use Rattle.xn_components.specs.Incidence.{IsIncidence};

    ghost Value = { Grown };

    ghost view = { λ g. grown_of g.web.now g.map g.placed.items g.free.items };

    ghost invariant = { λ g. IsIncidence g.web.now g.darts.now × IsGrown (grown_of g.web.now g.map g.placed.items g.free.items) };
}

impl<'a> Growth<'a> {
    /// The map in which the first of the listed segments is placed, and the others may be.
    pub fn begin(
        alloc: Global,
        web: &'a Web,
        darts: &'a Incidence,
        list: &[u32],
    ) -> Result<Growth<'a>, AllocError>
        requires no_loop { HasNoLoop web.now.ends }
        requires darts { IsIncidence web.now darts.now }
        requires grows { GrowsFromFirst web.now.ends list.now }
        ensures { IfOk result (IsBegun web.now list.now) }
    {
        let map = rearranged(alloc, web, &[], &[], &[])?;
        let free = marks_of(alloc, web.segments(), list)?;
        let mut growth = Growth {
            web,
            darts,
            map,
            placed: Vec::new(alloc),
            free,
        };
        let (u, v) = web.end(list[0]);
        growth.put(list[0], Corner::Lone(u), Corner::Lone(v))?;
        Ok(growth)
    }

    /// The map of the placed segments.
    pub fn map(&self) -> &Map
        ensures value { result.now ≡ self.now.map }
        ensures grown { IsGrown self.now }
    {
        &self.map
    }

    /// The placed segments, in the order of the map.
    pub fn placed(&self) -> &[u32]
        ensures value { result.now ≡ self.now.placed }
        ensures grown { IsGrown self.now }
    {
        self.placed.as_slice()
    }

    /// The map and the placed segments.
    pub fn into_parts(self) -> (Map, Vec<u32>)
        ensures map { result.0 ≡ self.entry.map }
        ensures placed { result.1.items ≡ self.entry.placed }
        ensures grown { IsGrown self.entry }
    {
        let Growth { map, placed, .. } = self;
        (map, placed)
    }

    /// Whether a segment may be placed.
    pub fn is_free(&self, s: u32) -> bool
        ensures value { result ≡ is_marked self.now.free s }
        ensures grown { IsGrown self.now }
    {
        (s as usize) < self.free.len() && self.free[s as usize]
    }

    /// The number of segments of the web.
    pub fn segments(&self) -> u32
        ensures value { result ≡ length self.now.web.ends }
        ensures few { result ≤ 2 ^ 30 }
        ensures grown { IsGrown self.now }
    {
        self.web.segments()
    }

    /// The number of nodes.
    pub fn nodes(&self) -> u32 {
        self.web.nodes()
    }

    /// The ends of a segment of the web.
    pub fn ends(&self, s: u32) -> (u32, u32)
        requires { s < length self.now.web.ends }
        ensures value { result ≡ ends_at self.now.web.ends s }
        ensures nodes { HasNodes self.now.web.nodes result }
    {
        self.web.end(s)
    }

    /// The greatest dart of the web at a node.
    pub fn latest(&self, v: u32) -> Option<u32>
        ensures { IfSome result (λ d. IsDartOf self.now.web.ends v d) }
    {
        if v < self.web.nodes() {
            self.darts.latest[v as usize]
        } else {
            None
        }
    }

    /// The dart of the web before this one at its node.
    pub fn earlier(&self, d: u32) -> Option<u32>
        ensures below { IfSome result (λ e. e < d) }
        ensures same_node { IfSome result (λ e. IsDartOf self.now.web.ends (tail_of self.now.web.ends d) e) }
    {
        if d < 2 * self.web.segments() {
            self.darts.earlier[d as usize]
        } else {
            None
        }
    }

    /// The node to which a dart of the web leads, or 0 where there is no such dart.
    pub fn head(&self, d: u32) -> u32 {
        if d / 2 < self.web.segments() {
            tail(self.web, d ^ 1)
        } else {
            0
        }
    }

    /// Whether a placed segment meets a node.
    pub fn is_old(&self, v: u32) -> bool
        ensures { result ≡ is_old self.now.web.ends self.now.placed v }
    {
        match self.map.dart_of(v) {
            Some(_) => true,
            None => false,
        }
    }

    /// Whether a face may have a corner at each of these nodes. Where it answers false, none has.
    pub fn may_share_face(&self, nodes: &[u32]) -> bool
        requires { 0 < length nodes.now }
        ensures { (result ≡ false) → NoFaceFrom self.now.map (at nodes.now 0) nodes.now }
    {
        match self.map.dart_of(nodes[0]) {
            None => true,
            Some(d) => match common_face(&self.map, d, nodes) {
                Some(_) => true,
                None => false,
            },
        }
    }

    /// The number of darts of the map.
    pub fn count(&self) -> u32
        ensures darts { result ≡ length self.now.map.next }
        ensures placed { result ≡ 2 * length self.now.placed }
    {
        2 * self.map.web().segments()
    }

    /// Places a segment in corners of its two ends, if it may go there.
    pub fn place(&mut self, s: u32, first: Corner, second: Corner) -> Result<bool, AllocError>
        ensures { Grows self.old self.new }
    {
        if !self.may_place(s, first, second) {
            return Ok(false);
        }
        self.put(s, first, second)?;
        Ok(true)
    }

    // Whether a segment may go from corner to corner.
    fn may_place(&self, s: u32, first: Corner, second: Corner) -> bool
        ensures { OnTrue result (MayPlace self.now s first second) }
    {
        if !self.is_free(s) {
            return false;
        }
        let (u, v) = self.ends(s);
        self.is_at(first, u) && self.is_at(second, v) && self.may_join(first, second)
    }

    // Whether it is a corner of the node.
    fn is_at(&self, corner: Corner, v: u32) -> bool
        ensures { OnTrue result (IsCornerAt self.now.map corner v) }
    {
        match corner {
            Corner::After(d) => d < self.count() && self.map.tail(d) == v,
            Corner::Lone(w) => w == v && self.is_lone(w),
        }
    }

    // Whether it is a node without darts.
    fn is_lone(&self, v: u32) -> bool
        ensures { OnTrue result (IsCorner self.now.map (Corner.Lone v)) }
    {
        if v >= self.map.web().nodes() {
            return false;
        }
        match self.map.dart_of(v) {
            None => true,
            Some(_) => false,
        }
    }

    // Whether two corners lie in one face, or one is that of a node without darts; or both, where no segment is placed.
    fn may_join(&self, first: Corner, second: Corner) -> bool
        requires first_in { IsCorner self.now.map first }
        requires second_in { IsCorner self.now.map second }
        ensures { OnTrue result (MayJoin self.now first second) }
    {
        match (first, second) {
            (Corner::After(_), Corner::After(_)) => self.map.same_face(first, second),
            (Corner::Lone(_), Corner::Lone(_)) => self.placed.is_empty(),
            (Corner::After(_), Corner::Lone(_)) | (Corner::Lone(_), Corner::After(_)) => true,
        }
    }

    // Places a segment from corner to corner.
    fn put(&mut self, s: u32, first: Corner, second: Corner) -> Result<(), AllocError>
        requires { MayPlace self.old s first second }
        ensures grows { Grows self.old self.new }
        ensures longer { OnOk result (length self.new.placed ≡ length self.old.placed + 1) }
        ensures taken { OnOk result (is_marked self.new.free s ≡ false) }
    {
        self.placed.reserve(1)?;
        // there are few segments, and it is a map
        self.web.segments();
        self.map.web();
        self.map.add_edge(first, second)?;
        // it is a map still
        self.map.web();
        self.placed.push_reserved(s);
        self.free[s as usize] = false;
        Ok(())
    }

    /// Places a free segment that shares a node with a placed one, wherever it may go. It answers false where no face has a
    /// corner at both its ends.
    pub fn force(&mut self, s: u32) -> Result<bool, AllocError>
        requires { IsNext self.old s }
        ensures grows { Grows self.old self.new }
        ensures longer { IfOk result (λ done. OnTrue done (length self.old.placed < length self.new.placed)) }
        ensures as_before { IfOk result (λ done. (done ≡ false) → self.new ≡ self.old) }
        ensures cut_off { IfOk result (λ done. (done ≡ false) → IsCutOff self.old s) }
    {
        match self.corners(s) {
            None => Ok(false),
            Some((first, second)) => {
                self.put(s, first, second)?;
                Ok(true)
            }
        }
    }

    // Corners from which to which a segment may go, if there are any.
    fn corners(&self, s: u32) -> Option<(Corner, Corner)>
        requires { IsNext self.now s }
        ensures some { IfSome result (λ c. MayPlace self.now s c.0 c.1) }
        ensures none { IfNone result (IsCutOff self.now s) }
    {
        let (u, v) = self.web.end(s);
        match (self.map.dart_of(u), self.map.dart_of(v)) {
            (None, None) => Some((Corner::Lone(u), Corner::Lone(v))),
            (Some(d), None) => Some((Corner::After(d), Corner::Lone(v))),
            (None, Some(e)) => Some((Corner::Lone(u), Corner::After(e))),
            (Some(d), Some(_)) => {
                let first = common_face(&self.map, d, &[v])?;
                let second = corner_in(&self.map, first, v)?;
                Some((Corner::After(first), Corner::After(second)))
            }
        }
    }

    /// Sorts the placed segments, and numbers the map so. After want of memory all is as before.
    pub fn sort(&mut self, alloc: Global) -> Result<(), AllocError>
        ensures same { Reorders self.old self.new }
        ensures rises { OnOk result (IsStrictlyIncreasing self.new.placed) }
    {
        let mut kept = Vec::from_slice(alloc, self.placed.as_slice())?;
        kept.sort()?;
        let next = successors(alloc, &self.map)?;
        self.map = rearranged(alloc, self.web, &self.placed, &next, &kept)?;
        self.placed = kept;
        Ok(())
    }
}

// Marks, of the numbers below n, exactly of those that are listed.
fn marks_of(alloc: Global, n: u32, list: &[u32]) -> Result<Vec<bool>, AllocError>
    requires { (i : ℕ) → i < length list.now → at list.now i < n }
    ensures size { IfOk result (λ marks. length marks.items ≡ n) }
    ensures marks { IfOk result (λ marks. (t : ℕ) → is_marked marks.items t ≡ has list.now t) }
{
    let mut marks = vec![in alloc; false; n as usize]?;
    for s in list {
        marks[*s as usize] = true;
    }
    Ok(marks)
}

// The successor of each dart.
fn successors(alloc: Global, map: &Map) -> Result<Vec<u32>, AllocError>
    ensures next { IfOk result (λ next. next.items ≡ map.now.next) }
    ensures is_map { OnOk result (IsListedMap map.now) }
{
    let mut next = Vec::new(alloc);
    for d in 0..2 * map.web().segments() {
        next.push(map.next(d))?;
    }
    Ok(next)
}
