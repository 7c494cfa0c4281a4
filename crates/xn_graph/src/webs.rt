ghost use Rattle.std.specs.Prelude.{◌≡◌, ◌+◌, ◌-◌, ◌*◌, ◌^◌, ◌<◌, ◌≤◌, ◌↔◌, [], ◌∷◌, ◌++◌, IfOk, IsErrOf, IfNone, IfSome, OkIff, OnErr, OnOk, length, set};
ghost use Rattle.std.specs.List.{swap_remove};
ghost use Rattle.xn_model.specs.Graph.{EndsIn, ends_at};
ghost use Rattle.xn_model.specs.Map.{tail_of};
ghost use Rattle.xn_graph.specs.Limits.{IsLimitedWeb, HasNodes, graph_of};
ghost use Rattle.xn_graph.specs.Refusals.{IsRefusedWeb};
ghost use Rattle.xn_graph.specs.declared.webs.WebErr.{WebErr};

use std::alloc::{AllocError, Global};
use std::marker::Model;
use thiserror::Error;

/// The most nodes, and the most segments, of a web.
pub const MAX_WEB: usize = 1 << 30;

/// Why a number of nodes and a list of ends are no web: the first cause in this order.
#[derive(Clone, Copy, Debug, PartialEq, Eq, Error)]
pub enum WebErr {
    /// There are more than 2^30 nodes or segments.
    #[error("more than 2^30 nodes or segments")]
    TooMany,
    /// This is the first segment with an end that is no node.
    #[error("an end of segment {0} is no node")]
    End(u32),
}

/// A web: nodes 0 to n - 1 and segments between them. It may have loops and parallel segments.
///
/// It has at most 2^30 nodes and 2^30 segments, and is seen as the number of its nodes and the list of its ends.
#[derive(Debug, Drop)]
pub struct Web {
    nodes: u32,
    ends: Vec<(u32, u32)>,
}

impl Model for Web {
    ghost use Rattle.xn_model.specs.Graph.{Graph};
    ghost use Rattle.xn_graph.specs.Limits.{IsLimitedWeb, graph_of};

    ghost Value = { Graph };

    ghost view = { λ w. graph_of w.nodes w.ends.items };

    ghost invariant = { λ w. IsLimitedWeb (graph_of w.nodes w.ends.items) };
}

impl Web {
    /// The web of these nodes and ends. It refuses too many nodes or segments, then the first segment with an end that is no
    /// node.
    pub fn make(nodes: u32, ends: Vec<(u32, u32)>) -> Result<Web, WebErr>
        ensures ok { let web = graph_of nodes ends.items in OkIff result (IsLimitedWeb web) web }
        ensures err { (e : WebErr) → IsErrOf result e ↔ IsRefusedWeb nodes ends.items e }
    {
        if nodes as usize > MAX_WEB || ends.len() > MAX_WEB {
            return Err(WebErr::TooMany);
        }
        match first_outside(nodes, ends.as_slice()) {
            None => Ok(Web { nodes, ends }),
            Some(s) => Err(WebErr::End(s)),
        }
    }

    /// The number of nodes.
    pub fn nodes(&self) -> u32
        ensures value { result ≡ self.now.nodes }
        ensures limited { IsLimitedWeb self.now }
    {
        self.nodes
    }

    /// The number of segments.
    pub fn segments(&self) -> u32
        ensures value { result ≡ length self.now.ends }
        ensures limited { IsLimitedWeb self.now }
    {
        self.ends.len() as u32
    }

    /// The two ends of a segment, in the order in which they were given.
    pub fn end(&self, s: u32) -> (u32, u32)
        requires { s < length self.now.ends }
        ensures value { result ≡ ends_at self.now.ends s }
        ensures nodes { HasNodes self.now.nodes result }
    {
        self.ends[s as usize]
    }

    /// The node of a dart: segment s has the dart 2s at its first end and 2s + 1 at its second.
    pub fn tail(&self, d: u32) -> u32
        requires { d < 2 * length self.now.ends }
        ensures value { result ≡ tail_of self.now.ends d }
        ensures node { result < self.now.nodes }
    {
        let (first, second) = self.end(d / 2);
        if d % 2 == 0 { first } else { second }
    }

    /// The same web again. It fails only for want of memory.
    pub fn copy(&self, alloc: Global) -> Result<Web, AllocError>
        ensures { IfOk result (λ w. w ≡ self.now) }
    {
        let ends = Vec::from_slice(alloc, self.ends.as_slice())?;
        Ok(Web {
            nodes: self.nodes,
            ends,
        })
    }

    /// One node more, the last, without segments. It takes no memory.
    pub fn add_node(&mut self)
        requires few { self.old.nodes < 2 ^ 30 }
        ensures added { self.new ≡ graph_of (self.old.nodes + 1) self.old.ends }
    {
        self.nodes += 1;
    }

    /// One segment more, the last. After want of memory the web is as before.
    pub fn add_segment(&mut self, u: u32, v: u32) -> Result<(), AllocError>
        requires few { length self.old.ends < 2 ^ 30 }
        requires nodes { HasNodes self.old.nodes (u, v) }
        ensures ok { OnOk result (self.new ≡ graph_of self.old.nodes (self.old.ends ++ (u, v) ∷ [])) }
        ensures err { OnErr result (self.new ≡ self.old) }
    {
        self.ends.reserve(1)?;
        self.ends.push_reserved((u, v));
        Ok(())
    }

    /// Takes a segment out; the last one takes its number. It takes no memory.
    pub fn remove_segment(&mut self, s: u32)
        requires { s < length self.old.ends }
        ensures { self.new ≡ graph_of self.old.nodes (swap_remove self.old.ends s (0, 0)) }
    {
        self.ends.swap_remove(s as usize);
    }

    /// Gives a segment other ends. It takes no memory.
    pub fn set_end(&mut self, s: u32, u: u32, v: u32)
        requires segment { s < length self.old.ends }
        requires nodes { HasNodes self.old.nodes (u, v) }
        ensures { self.new ≡ graph_of self.old.nodes (set self.old.ends s (u, v)) }
    {
        self.ends[s as usize] = (u, v);
    }

    /// Takes away the last node, which has no segment. It takes no memory.
    pub fn remove_node(&mut self)
        requires node { 0 < self.old.nodes }
        requires lone { EndsIn (self.old.nodes - 1) self.old.ends }
        ensures { self.old ≡ graph_of (self.new.nodes + 1) self.new.ends }
    {
        self.nodes -= 1;
    }
}

/// The first segment with an end that is no node.
fn first_outside(nodes: u32, ends: &[(u32, u32)]) -> Option<u32>
    requires nodes { nodes ≤ 2 ^ 30 }
    requires segments { length ends.now ≤ 2 ^ 30 }
    ensures none { IfNone result (IsLimitedWeb (graph_of nodes ends.now)) }
    ensures some { IfSome result (λ s. IsRefusedWeb nodes ends.now (WebErr.End s)) }
{
    for (s, &(u, v)) in ends.iter().enumerate() {
        if u >= nodes || v >= nodes {
            return Some(s as u32);
        }
    }
    None
}
