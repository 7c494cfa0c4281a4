// Whether a web has a flat map, and evidence where it comes quickly.
ghost use Rattle.std.specs.Prelude.{◌≡◌, ◌<◌, IfOk, false, length, replicate};
ghost use Rattle.xn_model.specs.Graph.{HasNoLoop};
ghost use Rattle.xn_components.specs.Incidence.{IsIncidence};
ghost use Rattle.xn_planar.specs.Planar.{IsDecision, TellsWhetherFlat};

use crate::cores::core_of;
use crate::renaming::evidence_within;
use std::alloc::{AllocError, Global};
use xn_components::{Incidence, Laid, component_from};
use xn_dmp::{Attempt, Jam, try_embed};
use xn_extend::laws::stuck_lists;
use xn_extend::{Extended, extend};
use xn_graph::Web;
use xn_kinds::Evidence;
use xn_map::Map;

/// Whether a web has a flat map, with what comes on the way.
#[derive(Drop)]
pub enum Decision {
    /// It has this one.
    Flat(Map),
    /// It has none, as this evidence shows.
    Refuted(Evidence),
    /// It has none.
    NoMap,
}

/// Whether a web without loops has a flat map.
pub fn has_flat_map(alloc: Global, web: &Web) -> Result<bool, AllocError>
    requires { HasNoLoop web.now.ends }
    ensures { IfOk result (TellsWhetherFlat web.now) }
{
    match decide(alloc, web)? {
        Decision::Flat(_) => Ok(true),
        Decision::Refuted(_) => Ok(false),
        Decision::NoMap => Ok(false),
    }
}

/// Whether a web without loops has a flat map: by paths, by evidence in a small part of it, or by flat insertions.
pub fn decide(alloc: Global, web: &Web) -> Result<Decision, AllocError>
    requires { HasNoLoop web.now.ends }
    ensures { IfOk result (IsDecision web.now) }
{
    match try_embed(alloc, web)? {
        Attempt::Flat(map) => Ok(Decision::Flat(map)),
        Attempt::Stuck(jam) => decide_stuck(alloc, web, &jam),
    }
}

// Whether a web has a flat map, where embedding by paths is stuck.
fn decide_stuck(alloc: Global, web: &Web, jam: &Jam) -> Result<Decision, AllocError>
    requires no_loop { HasNoLoop web.now.ends }
    requires fragment { 0 < length jam.now.fragment }
    ensures { IfOk result (IsDecision web.now) }
{
    let core = core_of(alloc, web, jam)?;
    match evidence_within(alloc, web, &core)? {
        Some(evidence) => Ok(Decision::Refuted(evidence)),
        None => by_insertions(alloc, web),
    }
}

// A flat map of a web, or a component that flat insertions don't reach. Its time may grow exponentially.
fn by_insertions(alloc: Global, web: &Web) -> Result<Decision, AllocError>
    requires { HasNoLoop web.now.ends }
    ensures { IfOk result (IsDecision web.now) }
{
    let darts = Incidence::of(alloc, web)?;
    let mut marks = vec![in alloc; false; web.segments() as usize]?;
    extend_each(alloc, web, &darts, marks.as_mut_slice())
}

// Extends each component in turn, where none is marked, and lays their maps beside each other.
fn extend_each(
    alloc: Global,
    web: &Web,
    darts: &Incidence,
    marks: &mut [bool],
) -> Result<Decision, AllocError>
    requires no_loop { HasNoLoop web.now.ends }
    requires darts { IsIncidence web.now darts.now }
    requires none { marks.old ≡ replicate (length web.now.ends) false }
    ensures { IfOk result (IsDecision web.now) }
{
    stuck_lists();
    let mut laid = Laid::new(alloc, web);
    for s in 0..web.segments() {
        if !marks[s as usize] {
            let list = component_from(alloc, web, darts, marks, s)?;
            match extend(alloc, web, &list)? {
                Extended::Flat(map) => laid = laid.lay(&list, &map)?,
                Extended::None => return Ok(Decision::NoMap),
            }
        }
    }
    Ok(Decision::Flat(laid.map(alloc)?))
}
