// Segments are left out from the last to the first, as long as there is no flat map. What is left is a core.
ghost use Rattle.std.specs.Prelude.{◌≡◌, ◌≤◌, ◌<◌, IfOk};
ghost use Rattle.xn_model.specs.Graph.{HasNoLoop};
ghost use Rattle.xn_genus.specs.Part.{AreSegmentsApart};
ghost use Rattle.xn_extend.specs.Extended.{listed_web};
ghost use Rattle.xn_planar.specs.Leaving.{AreLeft, IsLeastFront, IsLeftOver, IsMinimal, from_front};
ghost use Rattle.xn_planar.specs.Planar.{HasNoFlatMap, TellsWhetherFlat};

use crate::deciding::has_flat_map;
use std::alloc::{AllocError, Global};
use xn_extend::listed_web;
use xn_fewer::laws::flat_webs;
use xn_graph::Web;
use xn_list::Sequence;

/// What is left of a web where segments are left out as long as there is no flat map.
#[derive(Drop)]
pub enum MinimalWeb {
    /// The web has a flat map.
    Flat,
    /// It has none. These segments, which rise, have none either, and all but any one of them have one.
    Core(Sequence<u32>),
}

/// A core of a web without loops, if it has no flat map: from the last segment to the first, each is left out without
/// which the rest has none. What stays is a subdivision of K5 or of K3,3 (Kuratowski 1930).
///
/// Each segment that stays takes a planarity test, and where n segments go, about twice the binary logarithm of n more.
/// It fails only for want of memory.
pub fn minimal(alloc: Global, web: &Web) -> Result<MinimalWeb, AllocError>
    requires { HasNoLoop web.now.ends }
    ensures { IfOk result (IsMinimal web.now) }
{
    if has_flat_map(alloc, web)? {
        return Ok(MinimalWeb::Flat);
    }
    let core = left_over(alloc, web)?;
    Ok(MinimalWeb::Core(Sequence::new(core)))
}

/// The segments of a web without a flat map that stay, where from the last to the first each is left out without which
/// the rest has none. They rise.
pub fn left_over(alloc: Global, web: &Web) -> Result<Vec<u32>, AllocError>
    requires no_loop { HasNoLoop web.now.ends }
    requires none { HasNoFlatMap web.now }
    ensures { IfOk result (λ list. IsLeftOver web.now list.items) }
{
    flat_webs();
    let mut kept = Vec::new(alloc);
    let mut front = web.segments();
    while front > 0 {
        front = keep_one(alloc, web, &mut kept, front)?;
    }
    Ok(kept)
}

// Keeps one more of the first segments, the last that has to stay, if there is one. It answers how many are before it.
fn keep_one(alloc: Global, web: &Web, kept: &mut Vec<u32>, front: u32) -> Result<u32, AllocError>
    requires no_loop { HasNoLoop web.now.ends }
    requires some { 0 < front }
    requires left { AreLeft web.now front kept.old.items }
    ensures fewer { IfOk result (λ rest. rest < front) }
    ensures left { IfOk result (λ rest. AreLeft web.now rest kept.new.items) }
{
    flat_webs();
    let least = least_front(alloc, web, kept, front)?;
    if least == 0 {
        return Ok(0);
    }
    kept.insert(0, least - 1)?;
    Ok(least - 1)
}

// The least number of first segments, of at most this many, that have no flat map with those that stay.
fn least_front(alloc: Global, web: &Web, kept: &[u32], most: u32) -> Result<u32, AllocError>
    requires no_loop { HasNoLoop web.now.ends }
    requires left { AreLeft web.now most kept.now }
    ensures { IfOk result (IsLeastFront web.now kept.now most) }
{
    let mut low = 0;
    let mut high = most;
    let mut step = 0;
    while low < high {
        let middle = between(low, high, step);
        if has_flat_front(alloc, web, kept, middle)? {
            low = middle + 1;
        } else {
            high = middle;
            step = 2 * step.min(1 << 30) + 1;
        }
    }
    Ok(high)
}

// A number to try: by steps down that grow, until one is too low, and then by halves.
fn between(low: u32, high: u32, step: u32) -> u32
    requires { low < high }
    ensures low { low ≤ result }
    ensures high { result < high }
{
    if low == 0 {
        high - 1 - step.min(high - 1)
    } else {
        low + (high - low) / 2
    }
}

// Whether the first segments and those that stay have a flat map.
fn has_flat_front(alloc: Global, web: &Web, kept: &[u32], front: u32) -> Result<bool, AllocError>
    requires no_loop { HasNoLoop web.now.ends }
    requires apart { AreSegmentsApart web.now.ends (from_front front kept.now) }
    ensures { IfOk result (TellsWhetherFlat (listed_web web.now (from_front front kept.now))) }
{
    let list = with_front(alloc, front, kept)?;
    let listed = listed_web(alloc, web, &list)?;
    has_flat_map(alloc, &listed)
}

// The numbers below the first, and then the list.
fn with_front(alloc: Global, front: u32, list: &[u32]) -> Result<Vec<u32>, AllocError>
    ensures { IfOk result (λ all. all.items ≡ from_front front list.now) }
{
    let mut all = (0..front).collect::<Vec<u32>>(alloc)?;
    all.extend_from_slice(list)?;
    Ok(all)
}
