// The graph of a text.
ghost use Rattle.std.specs.Prelude.{◌≡◌, IfErr, IsErrOf};
ghost use Rattle.xn_gml.specs.Meaning.{list_of, graph_in, graph_of_text};
ghost use Rattle.xn_gml.specs.Reading.{Gives};
ghost use Rattle.xn_gml.specs.ReadView.{found_in};

use crate::edges::edge_list;
use crate::errors::GmlErr;
use crate::grammar::check_grammar;
use crate::lists::next_list;
use crate::nodes::node_ids;
use crate::stream::Tokens;
use crate::token::Key;
use indexmap::IndexMap;
use std::alloc::Global;
use xn_graph::Graph;

/// The graph of a text.
#[derive(Drop)]
pub struct Read {
    /// The nodes are numbered by the order of their blocks in the text, the edges by the order of theirs.
    pub graph: Graph,
    /// The number of the node of each id, in order.
    pub ids: IndexMap<i64, u32>,
    /// How many edges whose ends are equal were left aside.
    pub loops: u64,
}

/// The graph of a GML text (Himsolt), or the first cause why it has none.
///
/// The graph is the list of the one top-level pair with key `graph` whose value is a list. In it the pairs with key `node` or
/// `edge` whose value is a list are the nodes and the edges; the first `id` of a node and the first `source` and `target` of an
/// edge count, and all else is skipped. It takes time linear in the text's length, and fails with `Memory` only for want of memory.
#[tactic(auto, unfolding(crate::specs::Meaning::graph_within))]
pub fn read_graph(alloc: Global, text: &[u8]) -> Result<Read, GmlErr>
    // The graph of the text, or its first refusal, unless memory is wanting.
    ensures read { Gives found_in result (graph_of_text text.now) }

    // The grammar's refusals and those of the graph as a whole come even where memory is wanting.
    ensures early { IfErr (list_of text.now) (IsErrOf result) }
{
    let list = graph_list(text)?;
    graph_in(alloc, &list)
}

// The list of the graph, where the text keeps the grammar.
#[tactic(auto, unfolding(crate::specs::Meaning::list_of))]
fn graph_list(text: &[u8]) -> Result<Tokens, GmlErr>
    ensures { result ≡ list_of text.now }
{
    check_grammar(text)?;
    let mut tokens = Tokens::new(text);
    let Some(graph) = next_list(&mut tokens, Key::Graph) else {
        return Err(GmlErr::NoGraph);
    };
    match next_list(&mut tokens, Key::Graph) {
        None => Ok(graph.list),
        Some(second) => Err(GmlErr::SecondGraph(second.at)),
    }
}

// The graph of a list.
#[tactic(auto, unfolding(crate::specs::Meaning::graph_in))]
fn graph_in(alloc: Global, list: &Tokens) -> Result<Read, GmlErr>
    ensures { Gives found_in result (graph_in 1000 list.now) }
{
    let ids = node_ids(alloc, list)?;
    let edges = edge_list(alloc, &ids, list)?;
    let nodes = ids.len() as u32;
    match Graph::make(nodes, edges.ends) {
        Ok(graph) => Ok(Read {
            graph,
            ids,
            loops: edges.loops,
        }),
        Err(_) => unreachable!(),
    }
}
