// A web that shrinks, as its darts: segment s has the dart 2s at its first end and 2s + 1 at its second.
ghost use Rattle.std.specs.Prelude.{◌≡◌, ◌+◌, ◌*◌, ◌^◌, ◌<◌, ◌≤◌, IfOk};

use std::alloc::{AllocError, Global};
use std::marker::Model;

// A node: the dart that came last, how many of its segments stand, and a dart that led here when parallels
// were looked for.
#[derive(Clone, Copy)]
struct Node {
    last: u32,
    degree: u32,
    met: u32,
}

// A dart: its node, the dart that came before it there, and the dart at the other end. The first dart of a
// node comes before itself, and a dart whose segment is gone is its own other end.
#[derive(Clone, Copy)]
struct Dart {
    node: u32,
    before: u32,
    mate: u32,
}

/// Nodes and darts of a web from which segments go. It is seen as the numbers of nodes and darts, which stay.
#[derive(Drop)]
pub struct Shrinking {
    nodes: Vec<Node>,
    darts: Vec<Dart>,
    segments: u32,
}

impl Model for Shrinking {
    ghost use Rattle.std.specs.Prelude.{ℕ, length};
    ghost use Rattle.xn_hint.specs.Darts.{AreInside};

    ghost Value = { ℕ × ℕ };

    ghost view = { λ w. (length w.nodes.items, length w.darts.items) };

    ghost invariant = { λ w. AreInside w.nodes.items w.darts.items w.segments };
}

impl Shrinking {
    /// So many nodes, and room for so many segments. It fails only for want of memory.
    pub fn new(alloc: Global, nodes: u32, segments: u32) -> Result<Shrinking, AllocError>
        requires some_node { 0 < nodes }
        requires few_nodes { nodes ≤ 2 ^ 30 }
        requires some_segment { 0 < segments }
        requires few_segments { segments ≤ 2 ^ 30 }
        ensures { IfOk result (λ w. w ≡ (nodes, 2 * segments)) }
    {
        let node = Node {
            last: 0,
            degree: 0,
            met: 0,
        };
        let dart = Dart {
            node: 0,
            before: 0,
            mate: 0,
        };
        Ok(Shrinking {
            nodes: vec![in alloc; node; nodes as usize]?,
            darts: vec![in alloc; dart; 2 * segments as usize]?,
            segments,
        })
    }

    /// Puts a segment between two nodes.
    pub fn put(&mut self, s: u32, u: u32, v: u32)
        requires few { s < 2 ^ 30 }
        requires segment { 2 * s + 1 < self.old.1 }
        requires first { u < self.old.0 }
        requires second { v < self.old.0 }
        ensures { self.new ≡ self.old }
    {
        self.put_dart(2 * s, u, 2 * s + 1);
        self.put_dart(2 * s + 1, v, 2 * s);
    }

    // Puts a dart at a node.
    fn put_dart(&mut self, d: u32, v: u32, mate: u32)
        requires dart { d < self.old.1 }
        requires node { v < self.old.0 }
        requires mate { mate < self.old.1 }
        ensures { self.new ≡ self.old }
    {
        let node = self.nodes[v as usize];
        let before = if node.degree == 0 { d } else { node.last };
        self.nodes[v as usize] = Node {
            last: d,
            degree: node.degree.saturating_add(1),
            met: node.met,
        };
        self.darts[d as usize] = Dart {
            node: v,
            before,
            mate,
        };
    }

    /// The number of nodes.
    pub fn nodes(&self) -> u32
        ensures value { result ≡ self.now.0 }
        ensures few { result ≤ 2 ^ 30 }
    {
        self.nodes.len() as u32
    }

    /// The number of darts, those of segments that are gone among them.
    pub fn darts(&self) -> u32
        ensures value { result ≡ self.now.1 }
        ensures few { result ≤ 2 ^ 31 }
    {
        self.darts.len() as u32
    }

    /// The number of segments that stand.
    pub fn segments(&self) -> u32
        ensures { 2 * result ≤ self.now.1 }
    {
        self.segments
    }

    /// How many segments stand at a node.
    pub fn degree(&self, v: u32) -> u32
        requires { v < self.now.0 }
    {
        self.nodes[v as usize].degree
    }

    /// The dart that came last to a node.
    pub fn last(&self, v: u32) -> u32
        requires { v < self.now.0 }
        ensures { result < self.now.1 }
    {
        self.nodes[v as usize].last
    }

    /// The dart that was kept at a node.
    pub fn met(&self, v: u32) -> u32
        requires { v < self.now.0 }
        ensures { result < self.now.1 }
    {
        self.nodes[v as usize].met
    }

    /// Keeps a dart at a node.
    pub fn set_met(&mut self, v: u32, d: u32)
        requires node { v < self.old.0 }
        requires dart { d < self.old.1 }
        ensures { self.new ≡ self.old }
    {
        let node = self.nodes[v as usize];
        self.nodes[v as usize] = Node {
            last: node.last,
            degree: node.degree,
            met: d,
        };
    }

    /// The node of a dart.
    pub fn node(&self, d: u32) -> u32
        requires { d < self.now.1 }
        ensures { result < self.now.0 }
    {
        self.darts[d as usize].node
    }

    /// The dart that came before a dart to its node, or the dart itself where it was the first.
    pub fn before(&self, d: u32) -> u32
        requires { d < self.now.1 }
        ensures { result < self.now.1 }
    {
        self.darts[d as usize].before
    }

    /// The dart at the other end of a dart's segment, or the dart itself where that segment is gone.
    pub fn mate(&self, d: u32) -> u32
        requires { d < self.now.1 }
        ensures { result < self.now.1 }
    {
        self.darts[d as usize].mate
    }

    // Gives a dart another end.
    fn set_mate(&mut self, d: u32, mate: u32)
        requires dart { d < self.old.1 }
        requires mate { mate < self.old.1 }
        ensures { self.new ≡ self.old }
    {
        let dart = self.darts[d as usize];
        self.darts[d as usize] = Dart {
            node: dart.node,
            before: dart.before,
            mate,
        };
    }

    // Takes a dart from its node.
    fn take(&mut self, d: u32)
        requires { d < self.old.1 }
        ensures { self.new ≡ self.old }
    {
        self.set_mate(d, d);
        let v = self.node(d);
        let node = self.nodes[v as usize];
        self.nodes[v as usize] = Node {
            last: node.last,
            degree: node.degree.saturating_sub(1),
            met: node.met,
        };
    }

    /// Takes the segment of a dart away.
    pub fn remove(&mut self, d: u32)
        requires { d < self.old.1 }
        ensures { self.new ≡ self.old }
    {
        let e = self.mate(d);
        self.take(d);
        self.take(e);
        self.segments = self.segments.saturating_sub(1);
    }

    /// Makes one segment of the two of these darts, from the other end of the one to that of the other.
    pub fn join(&mut self, d: u32, e: u32)
        requires first { d < self.old.1 }
        requires second { e < self.old.1 }
        ensures { self.new ≡ self.old }
    {
        let start = self.mate(d);
        let end = self.mate(e);
        self.take(d);
        self.take(e);
        self.set_mate(start, end);
        self.set_mate(end, start);
        self.segments = self.segments.saturating_sub(1);
    }
}
