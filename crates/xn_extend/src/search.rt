// The search for a flat map of a web. It puts one dart after another into the rings, and takes the last one out
// where no other can follow. The rings are their own stack: what leads to a dart is the corner chosen for it.
ghost use Rattle.std.specs.Prelude.{◌≡◌, ◌*◌, ◌<◌, ◌↔◌, IfNone, IfOk, IfSome, IsTrue, length};
ghost use Rattle.std.specs.List.{range_with_len};
ghost use Rattle.xn_extend.specs.Search.{AreEarlier, Came, IsChoice, IsInFace, IsNextChoice, Leads};

use crate::earlier::earlier_darts;
use std::alloc::{AllocError, Global};
use xn_graph::Web;
use xn_map::in_one_face;
use xn_ring::Rings;

/// Rings of all darts that come by flat insertions of the segments in their order, if there are any.
///
/// It tries each corner in turn, so its time may grow exponentially. It takes memory once, for each dart and each node.
pub fn flat_rings(alloc: Global, web: &Web) -> Result<Option<Rings>, AllocError>
    ensures found { IfOk result (λ found. IfSome found (Came web.now.ends (2 * length web.now.ends))) }
    ensures none { let n = 2 * length web.now.ends in
        IfOk result (λ found. IfNone found (¬ (Leads web.now.ends n 0 (range_with_len 0 n)))) }
{
    let earlier = earlier_darts(alloc, web)?;
    let darts = 2 * web.segments();
    let mut rings = Rings::new(alloc, darts)?;
    // The darts below this one are in.
    let mut level = 0;
    // The corner that was tried last for it.
    let mut last = None;
    while level < darts {
        match next_choice(web, &earlier, level, last) {
            Some(c) if is_in_face(web, &earlier, &rings, level, c) => {
                rings.splice(c, level);
                level += 1;
                last = None;
            }
            Some(c) => last = Some(c),
            None => {
                if level == 0 {
                    return Ok(None);
                }
                level -= 1;
                let c = rings.prev(level);
                rings.splice(c, level);
                last = Some(c);
            }
        }
    }
    Ok(Some(rings))
}

// The corner to be tried after the last one.
fn next_choice(web: &Web, earlier: &[Option<u32>], level: u32, last: Option<u32>) -> Option<u32>
    requires earlier { AreEarlier web.now.ends earlier.now }
    requires level { level < 2 * length web.now.ends }
    requires last { IfSome last (IsChoice web.now.ends level) }
    ensures { IsNextChoice web.now.ends level last result }
{
    match last {
        None => Some(earlier[level as usize].unwrap_or(level)),
        Some(c) => earlier[c as usize],
    }
}

// Whether a dart may go in after c, as far as the face is concerned.
fn is_in_face(web: &Web, earlier: &[Option<u32>], rings: &Rings, level: u32, c: u32) -> bool
    requires earlier { AreEarlier web.now.ends earlier.now }
    requires rings { length rings.now ≡ 2 * length web.now.ends }
    requires level { level < 2 * length web.now.ends }
    requires choice { IsChoice web.now.ends level c }
    ensures { IsTrue result ↔ IsInFace web.now.ends rings.now level c }
{
    if level % 2 == 0 || c == level || earlier[level as usize - 1].is_none() {
        return true;
    }
    in_one_face(rings, rings.next(level - 1), rings.next(c))
}
