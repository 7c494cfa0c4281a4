// Walks along the segments of a path.
ghost use Rattle.std.specs.Prelude.{◌≡◌, ℕ, IfNone, IfSome, length};
ghost use Rattle.xn_model.specs.Evidence.{LeadsTo, far_end, inner_nodes};
ghost use Rattle.xn_model.specs.Graph.{touches};
ghost use Rattle.xn_kura.specs.Flaws.{IsBroken};
ghost use Rattle.xn_kura.specs.Marks.{Clears, MarksMore, StopsAt};

use xn_graph::Web;

/// Whether a segment with these ends touches a node.
fn touches_node(ends: (u32, u32), v: u32) -> bool
    ensures { result ≡ touches ends v }
{
    ends.0 == v || ends.1 == v
}

/// The far end, from this node, of a segment that touches it.
fn far_node(ends: (u32, u32), v: u32) -> u32
    ensures { result ≡ far_end ends v }
{
    if ends.0 == v { ends.1 } else { ends.0 }
}

/// The node at which the walk from a node along these segments ends, if it is one.
pub fn walk_end(web: &Web, from: u32, path: &[u32]) -> Option<u32>
    ensures some { IfSome result (λ v. LeadsTo web.now.ends from path.now v) }
    ensures none { IfNone result (IsBroken web.now.ends from path.now) }
{
    let mut at = from;
    for &s in path {
        if s >= web.segments() || !touches_node(web.end(s), at) {
            return None;
        }
        at = far_node(web.end(s), at);
    }
    Some(at)
}

/// Marks the inner nodes of a path, up to the first that is marked already.
pub fn mark_inner(web: &Web, from: u32, path: &[u32], marks: &mut [bool]) -> Option<u32>
    requires leads { (v : ℕ) × LeadsTo web.now.ends from path.now v }
    requires sized { length marks.old ≡ web.now.nodes }
    ensures none { IfNone result (MarksMore marks.old (inner_nodes web.now.ends from path.now) marks.new) }
    ensures some { IfSome result (λ x. StopsAt marks.old (inner_nodes web.now.ends from path.now) x marks.new) }
{
    let mut at = from;
    for &s in &path[..path.len().saturating_sub(1)] {
        at = far_node(web.end(s), at);
        if marks[at as usize] {
            return Some(at);
        }
        marks[at as usize] = true;
    }
    None
}

/// Takes the marks of the inner nodes of a path away.
pub fn clear_inner(web: &Web, from: u32, path: &[u32], marks: &mut [bool])
    requires leads { (v : ℕ) × LeadsTo web.now.ends from path.now v }
    requires sized { length marks.old ≡ web.now.nodes }
    ensures { Clears marks.old (inner_nodes web.now.ends from path.now) marks.new }
{
    let mut at = from;
    for &s in &path[..path.len().saturating_sub(1)] {
        at = far_node(web.end(s), at);
        marks[at as usize] = false;
    }
}
