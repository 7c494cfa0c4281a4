// Webs in which each node knows one of its darts.
ghost use Rattle.std.specs.Prelude.{◌≡◌, ◌+◌, ◌-◌, ◌*◌, ◌/◌, ◌^◌, ◌<◌, [], ◌∷◌, ◌++◌, IfNone, IfOk, IfSome, OnErr, OnOk, length, set};
ghost use Rattle.std.specs.List.{swap_remove};
ghost use Rattle.xn_model.specs.Graph.{EndsIn, ends_at};
ghost use Rattle.xn_graph.specs.Limits.{HasNodes, IsLimitedWeb, graph_of};
ghost use Rattle.xn_map.specs.Anchored.{AreAnchors, HasNoDart, IsDartOf, OutlastsAt, StaysBehind, dart_renamed, ends_moved};
ghost use Rattle.xn_map.specs.Cutting.{MovesDart};

use crate::darts;
use std::alloc::{AllocError, Global};
use std::marker::Model;
use xn_graph::Web;

/// A web in which each node that has darts knows one of them. Contracts see the web.
#[derive(Drop)]
pub struct Anchored {
    web: Web,
    darts: Vec<u32>,
}

impl Model for Anchored {
    ghost use Rattle.xn_model.specs.Graph.{Graph};
    ghost use Rattle.xn_map.specs.Anchored.{AreAnchors};

    ghost Value = { Graph };

    ghost view = { λ a. a.web };

    ghost invariant = { λ a. AreAnchors a.web a.darts.items };
}

impl Anchored {
    /// The web, in which each node has found a dart.
    pub fn make(alloc: Global, web: Web) -> Result<Anchored, AllocError>
        ensures { IfOk result (λ a. a ≡ web) }
    {
        let mut darts = vec![in alloc; 0; web.nodes() as usize]?;
        find_darts(darts.as_mut_slice(), &web);
        Ok(Anchored { web, darts })
    }

    /// The web.
    pub fn web(&self) -> &Web
        ensures { result.now ≡ self.now }
    {
        &self.web
    }

    /// The number of nodes.
    pub fn nodes(&self) -> u32
        ensures value { result ≡ self.now.nodes }
        ensures limited { IsLimitedWeb self.now }
    {
        self.web.nodes()
    }

    /// The number of segments.
    pub fn segments(&self) -> u32
        ensures value { result ≡ length self.now.ends }
        ensures limited { IsLimitedWeb self.now }
    {
        self.web.segments()
    }

    /// The two ends of a segment.
    pub fn end(&self, s: u32) -> (u32, u32)
        requires { s < length self.now.ends }
        ensures value { result ≡ ends_at self.now.ends s }
        ensures nodes { HasNodes self.now.nodes result }
    {
        self.web.end(s)
    }

    /// A dart of a node, if it has one.
    pub fn dart_of(&self, v: u32) -> Option<u32>
        ensures some { IfSome result (λ d. IsDartOf self.now.ends v d) }
        ensures none { IfNone result (HasNoDart self.now.ends v) }
    {
        if v >= self.web.nodes() {
            return None;
        }
        let d = self.darts[v as usize];
        if d < 2 * self.web.segments() && self.web.tail(d) == v {
            Some(d)
        } else {
            None
        }
    }

    /// One node more, the last, without segments, which it answers. After want of memory all is as before.
    pub fn add_node(&mut self) -> Result<u32, AllocError>
        requires few { self.old.nodes < 2 ^ 30 }
        ensures node { IfOk result (λ v. v ≡ self.old.nodes) }
        ensures ok { OnOk result (self.new ≡ graph_of (self.old.nodes + 1) self.old.ends) }
        ensures err { OnErr result (self.new ≡ self.old) }
    {
        let v = self.web.nodes();
        self.darts.reserve(1)?;
        self.darts.push_reserved(0);
        self.web.add_node();
        Ok(v)
    }

    /// One segment more, the last. After want of memory all is as before.
    pub fn add_segment(&mut self, u: u32, v: u32) -> Result<(), AllocError>
        requires few { length self.old.ends < 2 ^ 30 }
        requires nodes { HasNodes self.old.nodes (u, v) }
        ensures ok { OnOk result (self.new ≡ graph_of self.old.nodes (self.old.ends ++ (u, v) ∷ [])) }
        ensures err { OnErr result (self.new ≡ self.old) }
    {
        let s = self.web.segments();
        self.web.add_segment(u, v)?;
        self.darts[u as usize] = 2 * s;
        self.darts[v as usize] = 2 * s + 1;
        Ok(())
    }

    /// Moves a dart to a node. The caller knows another dart that stays where it was, if one does. It takes no memory.
    pub fn move_dart(&mut self, d: u32, v: u32, other: u32)
        requires dart { d < 2 * length self.old.ends }
        requires node { v < self.old.nodes }
        requires other { StaysBehind self.old.ends d v other }
        ensures exactly { self.new ≡ graph_of self.old.nodes (set self.old.ends (d / 2) (ends_moved d v (ends_at self.old.ends (d / 2)))) }
        ensures moved { MovesDart d v self.old self.new }
    {
        let u = self.web.tail(d);
        darts::move_dart(&mut self.web, d, v);
        self.darts[u as usize] = other;
        self.darts[v as usize] = d;
    }

    /// Takes a segment out; the last one takes its number. The caller knows, for each end, a dart that stays there, if one
    /// does. It takes no memory.
    pub fn remove_segment(&mut self, s: u32, first: u32, second: u32)
        requires segment { s < length self.old.ends }
        requires first { OutlastsAt self.old.ends s (2 * s) first }
        requires second { OutlastsAt self.old.ends s (2 * s + 1) second }
        ensures { self.new ≡ graph_of self.old.nodes (swap_remove self.old.ends s (0, 0)) }
    {
        let last = self.web.segments() - 1;
        let (u, v) = self.web.end(s);
        let (x, y) = self.web.end(last);
        self.darts[x as usize] = 2 * s;
        self.darts[y as usize] = 2 * s + 1;
        self.darts[u as usize] = renamed(first, s, last);
        self.darts[v as usize] = renamed(second, s, last);
        self.web.remove_segment(s);
    }

    /// Takes away the last node, which has no segment. It takes no memory.
    pub fn remove_node(&mut self)
        requires node { 0 < self.old.nodes }
        requires lone { EndsIn (self.old.nodes - 1) self.old.ends }
        ensures { self.old ≡ graph_of (self.new.nodes + 1) self.new.ends }
    {
        let left = self.web.nodes() - 1;
        self.darts.truncate(left as usize);
        self.web.remove_node();
    }
}

// The number of a dart once the last segment has the number s.
fn renamed(d: u32, s: u32, last: u32) -> u32
    requires { s < 2 ^ 30 }
    ensures { result ≡ dart_renamed s last d }
{
    if d / 2 == last { 2 * s + d % 2 } else { d }
}

// Finds a dart of each node.
fn find_darts(darts: &mut [u32], web: &Web)
    requires { length darts.old ≡ web.now.nodes }
    ensures { AreAnchors web.now darts.new }
{
    for d in 0..2 * web.segments() {
        let v = web.tail(d);
        darts[v as usize] = d;
    }
}
