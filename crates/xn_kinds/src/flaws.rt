use xn_graph::Euler;

/// What is wrong with a drawing: the first flaw in this order.
#[derive(Clone, Copy, Debug, PartialEq, Eq)]
pub enum DrawFlaw {
    /// The orders don't have one list for each edge, or the rotation doesn't have two entries for each segment.
    Length,
    /// The second stands in the list of the first, and is no edge, or stood there before, or hasn't the first in its own list.
    Order(u32, u32),
    /// The second stands in the list of the first, and they aren't independent.
    Dependent(u32, u32),
    /// What follows this dart is no dart, or one at another node, or follows a smaller dart too; or else, where this is so of
    /// no dart, the first dart in another cycle than the least dart of its node.
    Rotation(u32),
    /// The edges, the smaller first, touch at their crossing.
    Touch(u32, u32),
    /// The counts of the map, which isn't flat.
    Genus(Euler),
}

/// What is wrong with an evidence: the first flaw in this order.
#[derive(Clone, Copy, Debug, PartialEq, Eq)]
pub enum EvidenceFlaw {
    /// The branch node at this place is no node of the web, or stands at an earlier place too.
    Branch(u32),
    /// The path at this place has an entry that is no segment, or doesn't touch the node that its walk has come to.
    Broken(u32),
    /// The path at this place walks to another node than its second branch node.
    Ends(u32),
    /// This segment is used twice.
    Twice(u32),
    /// This inner node of a path is a branch node, or was met before.
    Inner(u32),
    /// The entry at this place of an extension's list is no segment, or stood there before, or shares no node with an earlier one.
    List(u32),
}

/// What is wrong with a row: the first flaw in this order.
#[derive(Clone, Copy, Debug, PartialEq, Eq)]
pub enum RowFlaw {
    /// This listed edge is no edge, or isn't above the one before it.
    Edge(u32),
    /// The second stands in the list of the first, and isn't listed, or stood there before, or hasn't the first in its own list.
    Order(u32, u32),
    /// The second stands in the list of the first, and they aren't independent.
    Dependent(u32, u32),
    /// The evidence has this flaw.
    Evidence(EvidenceFlaw),
    /// Flat insertions reach the end of the list of an extension.
    Extends,
}

/// What is wrong with a line of an answer: of what is wrong with it, the first in this order.
#[derive(Clone, Copy, Debug, PartialEq, Eq)]
pub enum FlawKind {
    /// The line isn't of a form that may stand there, or it isn't ended, or it is missing.
    Syntax,
    /// A number is outside its range.
    Number,
    /// The edge with this number joins a node to itself.
    Loop(u32),
    /// The graph has another number of nodes, edges or loops than the input.
    SizeDiffers,
    /// The edge with this number isn't the input's, in its direction.
    GraphDiffers(u32),
    /// The drawing has this flaw.
    Draw(DrawFlaw),
    /// The drawing has another number of crossings than is said.
    Count {
        /// The upper bound of the answer.
        said: u64,
        /// The number of crossings of its drawing.
        counted: u64,
    },
    /// The row with this number has this flaw.
    Row(u32, RowFlaw),
    /// The tree node with this number, or the end after so many nodes, doesn't go on with the tree.
    TreeShape(u64),
    /// The bound of a leaf isn't above what it has to pass.
    Weak {
        /// The bound of the leaf.
        bound: i128,
        /// The number that it doesn't pass: the divisor, times one less than the lower bound.
        need: i128,
    },
    /// Something stands behind the end.
    Trailing,
}

/// The flaw of an answer: its line, from 1 on, and its kind.
#[derive(Clone, Copy, Debug, PartialEq, Eq)]
pub struct Flaw {
    /// The number of the line.
    pub line: u64,
    /// What is wrong with it.
    pub kind: FlawKind,
}
