// The edge of each segment.
ghost use Rattle.std.specs.Prelude.{◌≡◌, ◌++◌, IfOk, OnOk, length, replicate};
ghost use Rattle.xn_model.specs.Drawing.{order_of};
ghost use Rattle.xn_model.specs.Graph.{edges_of};
ghost use Rattle.xn_show.specs.Text.{segment_edges};

use std::alloc::{AllocError, Global};
use xn_graph::Graph;
use xn_kinds::Orders;

/// The edge of each segment of the planarised graph: each edge in turn has one segment more than crossings.
pub fn segment_edges(alloc: Global, graph: &Graph, orders: &Orders) -> Result<Vec<u32>, AllocError>
    requires { length orders.now ≡ length graph.now.ends }
    ensures { IfOk result (λ of. of.items ≡ segment_edges (edges_of graph.now) (order_of graph.now orders.now)) }
{
    let mut of = Vec::new(alloc);
    for e in 0..graph.edges() {
        let crossings = orders.at(e as usize).len();
        push_times(&mut of, e, crossings + 1)?;
    }
    Ok(of)
}

// Appends a number so many times.
fn push_times(of: &mut Vec<u32>, e: u32, times: usize) -> Result<(), AllocError>
    ensures { OnOk result (of.new.items ≡ of.old.items ++ replicate times e) }
{
    for _ in 0..times {
        of.push(e)?;
    }
    Ok(())
}
