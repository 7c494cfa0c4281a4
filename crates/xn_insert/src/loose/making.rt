// Maps and walks that are handed in.
ghost use Rattle.std.specs.Prelude.{IfErr, IfOk};
ghost use Rattle.xn_insert.specs.Judged.{IsLooseCause, IsMade};

use crate::flaws::{LooseErr, LooseFlaw};
use crate::judging::{check_segments, check_turns, check_walks};
use crate::loose::Loose;
use crate::walks::Walks;
use std::alloc::Global;
use xn_graph::Graph;
use xn_map::Map;

impl Loose {
    /// The loose drawing of all edges of the graph with this map and these walks, or why they are none.
    ///
    /// So a drawing of any kind is handed in: edges may cross themselves, and each other anyhow. The flaws, in this order:
    /// sizes; the first edge whose walk isn't one over further nodes from its first to its second end; the first segment
    /// that isn't walked exactly once; the first further node that hasn't four darts, or over which a walk doesn't go
    /// straight; the genus. It takes time linear in the map and the walks.
    pub fn make(alloc: Global, graph: &Graph, map: Map, walks: Walks) -> Result<Loose, LooseErr>
        ensures ok { IfOk result (IsMade graph.now map walks) }
        ensures err { IfErr result (IsLooseCause graph.now map walks) }
    {
        let nodes = graph.nodes();
        check_walks(graph, &map, &walks)?;
        check_segments(alloc, graph, &map, &walks)?;
        check_turns(alloc, graph, &map, &walks)?;
        let euler = map.euler(alloc)?;
        if !euler.is_balanced() {
            return Err(LooseErr::Flaw(LooseFlaw::Genus(euler)));
        }
        let _web = map.web();
        Ok(Loose { nodes, map, walks })
    }
}
