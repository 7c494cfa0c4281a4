ghost use Rattle.std.specs.Prelude.{◌≡◌, ◌<◌, [], ◌∷◌, false, replicate, IfNone, IfOk, IfSome, length};
ghost use Rattle.xn_model.specs.Graph.{HasNoLoop};
ghost use Rattle.xn_model.specs.Insertion.{GrowsFromFirst};
ghost use Rattle.xn_components.specs.Incidence.{IsIncidence};
ghost use Rattle.xn_dmp.specs.Attempts.{IsAttempt, IsOutcome};
ghost use Rattle.xn_dmp.specs.Fragments.{IsStuckAt};
ghost use Rattle.xn_dmp.specs.Growing.{IsNext, KeepsAll};
ghost use Rattle.xn_dmp.specs.Jams.{IsJam};

use crate::fragments::stuck_fragment;
use crate::growing::Growth;
use crate::jams::Jam;
use crate::proposing::Proposer;
use std::alloc::{AllocError, Global};
use xn_components::{Incidence, Laid, component_from};
use xn_graph::Web;
use xn_list::Sequence;
use xn_map::Map;

/// What an attempt comes to.
#[derive(Drop)]
pub enum Attempt {
    /// A flat map of the web.
    Flat(Map),
    /// A fragment that no face takes.
    Stuck(Jam),
}

// What comes of a component.
#[derive(Drop)]
enum Outcome<'a> {
    Whole(Growth<'a>),
    Jammed(Jam),
}

/// Tries to embed a web without loops, component by component, path by path. Its time is at most quadratic.
pub fn try_embed(alloc: Global, web: &Web) -> Result<Attempt, AllocError>
    requires { HasNoLoop web.now.ends }
    ensures { IfOk result (IsAttempt web.now) }
{
    let darts = Incidence::of(alloc, web)?;
    let mut marks = vec![in alloc; false; web.segments() as usize]?;
    embed_each(alloc, web, &darts, marks.as_mut_slice())
}

// Embeds each component in turn, where none is marked, and lays their maps beside each other.
fn embed_each(
    alloc: Global,
    web: &Web,
    darts: &Incidence,
    marks: &mut [bool],
) -> Result<Attempt, AllocError>
    requires no_loop { HasNoLoop web.now.ends }
    requires darts { IsIncidence web.now darts.now }
    requires none { marks.old ≡ replicate (length web.now.ends) false }
    ensures { IfOk result (IsAttempt web.now) }
{
    let mut laid = Laid::new(alloc, web);
    for s in 0..web.segments() {
        if !marks[s as usize] {
            let list = component_from(alloc, web, darts, marks, s)?;
            match embed(alloc, web, darts, &list)? {
                Outcome::Whole(growth) => laid = laid.lay(growth.placed(), growth.map())?,
                Outcome::Jammed(jam) => return Ok(Attempt::Stuck(jam)),
            }
        }
    }
    Ok(Attempt::Flat(laid.map(alloc)?))
}

// Embeds a component.
fn embed<'a>(
    alloc: Global,
    web: &'a Web,
    darts: &'a Incidence,
    list: &[u32],
) -> Result<Outcome<'a>, AllocError>
    requires no_loop { HasNoLoop web.now.ends }
    requires darts { IsIncidence web.now darts.now }
    requires grows { GrowsFromFirst web.now.ends list.now }
    ensures { IfOk result (IsOutcome web.now list.now) }
{
    let mut growth = Growth::begin(alloc, web, darts, list)?;
    let mut proposer = Proposer::begin(alloc, &growth, list)?;
    let mut i = 1;
    while i < list.len() {
        if growth.is_free(list[i]) {
            if let Some(fragment) = turn(alloc, &mut growth, &mut proposer, list[i])? {
                return Ok(Outcome::Jammed(jam_of(growth, fragment)));
            }
        } else {
            i += 1;
        }
    }
    Ok(Outcome::Whole(growth))
}

// The jam of a fragment that no face takes.
fn jam_of(growth: Growth, fragment: Vec<u32>) -> Jam
    requires { IsStuckAt growth fragment.items }
    ensures { IsJam growth.entry.web result }
{
    let (map, placed) = growth.into_parts();
    Jam {
        kept: Sequence::new(placed),
        map,
        fragment: Sequence::new(fragment),
    }
}

// Places a path of a fragment, or at least the segment, or answers a fragment that no face takes.
fn turn(
    alloc: Global,
    growth: &mut Growth,
    proposer: &mut Proposer,
    s: u32,
) -> Result<Option<Vec<u32>>, AllocError>
    requires { IsNext growth.old s }
    ensures keeps { KeepsAll growth.old growth.new }
    ensures placed { IfOk result (λ stuck. IfNone stuck (length growth.old.placed < length growth.new.placed)) }
    ensures stuck { IfOk result (λ stuck. IfSome stuck (λ f. IsStuckAt growth.new f.items)) }
{
    let before = growth.count();
    let chosen = proposer.propose(alloc, growth)?;
    if before < growth.count() {
        return Ok(None);
    }
    growth.sort(alloc)?;
    if growth.is_free(chosen) {
        if let Some(fragment) = proposer.stuck(alloc, growth, chosen)? {
            return Ok(Some(fragment));
        }
    }
    if growth.force(s)? {
        return Ok(None);
    }
    let mut fragment = Vec::new(alloc);
    fragment.push(s)?;
    Ok(Some(fragment))
}
