ghost use Rattle.std.specs.Prelude.{◌≡◌, ◌<◌, All, IfNone, IfOk, IfSome, length};
ghost use Rattle.xn_kura.specs.Marks.{Clears, MarksMore, StopsAt, sizes_of};

use std::alloc::{AllocError, Global};
use std::marker::Model;
use xn_graph::Web;

/// What `holds` marks in a web: the nodes and segments that it has met. None is marked between two calls.
#[derive(Debug, Drop)]
pub struct Marks {
    pub(crate) nodes: Vec<bool>,
    pub(crate) segments: Vec<bool>,
}

impl Model for Marks {
    ghost use Rattle.std.specs.Prelude.{ℕ, [], length};
    ghost use Rattle.xn_kura.specs.Marks.{MarksExactly};

    ghost Value = { ℕ × ℕ };

    ghost view = { λ m. (length m.nodes.items, length m.segments.items) };

    ghost invariant = { λ m. MarksExactly [] m.nodes.items × MarksExactly [] m.segments.items };
}

impl Marks {
    /// Marks for webs of as many nodes and segments as this one.
    pub fn new(alloc: Global, web: &Web) -> Result<Marks, AllocError>
        ensures { IfOk result (λ marks. marks ≡ sizes_of web.now) }
    {
        let nodes = vec![in alloc; false; web.nodes() as usize]?;
        let segments = vec![in alloc; false; web.segments() as usize]?;
        Ok(Marks { nodes, segments })
    }
}

/// Marks the numbers of a list, up to the first that is marked already.
pub fn mark(marks: &mut [bool], list: &[u32]) -> Option<u32>
    requires { All (λ x. x < length marks.old) list.now }
    ensures none { IfNone result (MarksMore marks.old list.now marks.new) }
    ensures some { IfSome result (λ x. StopsAt marks.old list.now x marks.new) }
{
    for &x in list {
        if marks[x as usize] {
            return Some(x);
        }
        marks[x as usize] = true;
    }
    None
}

/// Takes the marks of the numbers of a list away.
pub fn clear(marks: &mut [bool], list: &[u32])
    requires { All (λ x. x < length marks.old) list.now }
    ensures { Clears marks.old list.now marks.new }
{
    for &x in list {
        marks[x as usize] = false;
    }
}
