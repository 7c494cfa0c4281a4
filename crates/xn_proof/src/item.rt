// What a line says.
use xn_kinds::Node;
use xn_list::Sequence;

/// What a line of an answer says.
#[derive(Debug, Drop)]
pub enum Item {
    /// The header, with the number of the format.
    Header(u32),
    /// The numbers of the graph, each at most 1,000.
    Graph {
        /// How many nodes it has.
        nodes: u32,
        /// How many edges it has.
        edges: u32,
    },
    /// How many loops of the input were left aside.
    Loops(u64),
    /// The two ends of the next edge, which are different nodes.
    Edge(u32, u32),
    /// The bounds, each at most 499,500.
    Bounds {
        /// What the proof is to show: every drawing has at least so many crossings.
        lower: u32,
        /// What is said to be the number of crossings of the drawing.
        upper: u32,
    },
    /// How much the search took.
    Effort {
        /// How many tree nodes it opened, at most `budget`.
        spent: u64,
        /// How many it might have opened, at most 200,000.
        budget: u64,
    },
    /// The edges that cross the next edge, along it.
    Along(Sequence<u32>),
    /// What follows the two darts of the next segment.
    Turn(u32, u32),
    /// The end of the drawing.
    Drawn,
    /// How many rows come, at most 1,048,576.
    Rows(u32),
    /// How many edges the next row lists.
    Row(u32),
    /// An edge that a row lists.
    Over {
        /// The edge.
        edge: u32,
        /// Those that cross it, along it.
        list: Sequence<u32>,
    },
    /// The branch nodes of a row's evidence, of which there are five or six.
    Branch(Sequence<u32>),
    /// The segments of the next path of a row's evidence.
    Path(Sequence<u32>),
    /// The segments that are a row's evidence.
    Extension(Sequence<u32>),
    /// The beginning of the tree.
    Tree,
    /// The next node of the tree, in preorder.
    Step(Node),
    /// The end of the answer.
    End,
}
