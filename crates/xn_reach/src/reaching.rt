// Whether flat insertions reach the end of a list, by the planarity test.
ghost use Rattle.std.specs.Prelude.{IfOk};
ghost use Rattle.xn_model.specs.Graph.{HasNoLoop};
ghost use Rattle.xn_model.specs.Insertion.{GrowsFromFirst};
ghost use Rattle.xn_extend.specs.Extended.{IsAnswer};

use std::alloc::{AllocError, Global};
use xn_extend::{Extended, listed_web};
use xn_graph::Web;
use xn_planar::{Planarity, planar};

/// The map to which flat insertions of the listed segments lead in the order of the list, if they reach the end: what
/// `extend` of `xn_extend` answers. It fails only for want of memory.
///
/// The web has no loops and the list no flaw (`list_flaw`). No insertion is tried: the end is reached exactly where the
/// web of the listed segments has a flat map (`laws::listed_webs`), which the planarity test says.
pub fn reach_end(alloc: Global, web: &Web, list: &[u32]) -> Result<Extended, AllocError>
    requires no_loop { HasNoLoop web.now.ends }
    requires grows { GrowsFromFirst web.now.ends list.now }
    ensures { IfOk result (IsAnswer web.now list.now) }
{
    let listed = listed_web(alloc, web, list)?;
    match planar(alloc, &listed)? {
        Planarity::Flat(map) => Ok(Extended::Flat(map)),
        Planarity::Not(_) => Ok(Extended::None),
    }
}
