// The text that shows a drawing.
ghost use Rattle.std.specs.Prelude.{◌≡◌, ◌++◌, ◌*◌, IfOk, OnOk, length};
ghost use Rattle.xn_model.specs.Drawing.{IsListedDrawing, drawn_web};
ghost use Rattle.xn_model.specs.Lists.{at};
ghost use Rattle.xn_show.specs.Darts.{LeadsInside};
ghost use Rattle.xn_show.specs.Text.{nodes_text, segments_text, show_text};

use crate::segments::segment_edges;
use crate::writing::{put_node, put_segment};
use std::alloc::{AllocError, Global};
use xn_graph::{Graph, Stars, Web};
use xn_kinds::Drawing;
use xn_orders::planarise;

/// The text that shows a drawing of the graph, whose nodes have these ids: the planarised graph as GML, with the rotation.
///
/// It takes time near linear in the number of segments, and fails only for want of memory.
pub fn show(
    alloc: Global,
    graph: &Graph,
    ids: &[i64],
    drawing: &Drawing,
) -> Result<Vec<u8>, AllocError>
    requires drawing { IsListedDrawing graph.now drawing.now.orders drawing.now.next }
    requires ids { length ids.now ≡ graph.now.nodes }
    ensures { IfOk result (λ text. text.items ≡ show_text graph.now ids.now drawing.now) }
{
    let web = drawn_web(alloc, graph, drawing)?;
    let stars = Stars::of(alloc, &web)?;
    let of = segment_edges(alloc, graph, &drawing.orders)?;
    let mut to = b"graph [\n  directed 0\n".to_vec(alloc)?;
    put_nodes(&mut to, ids, drawing.next.as_slice(), &stars)?;
    put_segments(&mut to, &web, &of)?;
    to.extend_from_slice(b"]\n".as_slice())?;
    Ok(to)
}

// The planarised graph of a drawing.
fn drawn_web(alloc: Global, graph: &Graph, drawing: &Drawing) -> Result<Web, AllocError>
    requires { IsListedDrawing graph.now drawing.now.orders drawing.now.next }
    ensures { IfOk result (λ web. web ≡ drawn_web graph.now drawing.now.orders) }
{
    let edges = graph.all_edges(alloc)?;
    planarise(alloc, graph, &edges, &drawing.orders)
}

// The lines of the nodes of a web, each with its darts.
fn put_nodes(to: &mut Vec<u8>, ids: &[i64], next: &[u32], stars: &Stars) -> Result<(), AllocError>
    requires turns { LeadsInside next.now (2 * length stars.now.ends) }
    ensures { OnOk result (to.new.items ≡ to.old.items ++ nodes_text ids.now stars.now (at next.now)) }
{
    for v in 0..stars.nodes() {
        put_node(to, ids, v, next, stars.at(v))?;
    }
    Ok(())
}

// The lines of the segments of a web, each with its edge.
fn put_segments(to: &mut Vec<u8>, web: &Web, of: &[u32]) -> Result<(), AllocError>
    requires { length of.now ≡ length web.now.ends }
    ensures { OnOk result (to.new.items ≡ to.old.items ++ segments_text web.now.ends of.now) }
{
    for s in 0..web.segments() {
        put_segment(to, s, web.end(s), of[s as usize])?;
    }
    Ok(())
}
