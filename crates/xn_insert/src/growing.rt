// A step of an edge that comes in, and what becomes of the walks.
ghost use Rattle.std.specs.Prelude.{◌≡◌, ℕ, ◌+◌, ◌++◌, ◌*◌, ◌^◌, ◌<◌, ◌≤◌, IfOk, OnOk, length};
ghost use Rattle.xn_model.specs.Lists.{at};
ghost use Rattle.xn_model.specs.Map.{MeetsEuler, face_step};
ghost use Rattle.xn_model.specs.Permutation.{Reaches};
ghost use Rattle.xn_surgery.specs.Subdivision.{dart_now};
ghost use Rattle.xn_map.specs.Listed.{IsListedMap};
ghost use Rattle.xn_loose.specs.Routes.{dart_back, dart_on};
ghost use Rattle.xn_insert.specs.Cuts.{AreCut, StepsOver, cut_darts, cut_one};
ghost use Rattle.xn_insert.specs.ListedLoose.{AreWithin};

use crate::walks::Walks;
use std::alloc::{AllocError, Global};
use xn_map::{Corner, Map, MapErr};

/// The same map again. It fails only for want of memory.
pub fn copied(alloc: Global, map: &Map) -> Result<Map, AllocError>
    ensures { IfOk result (λ copy. copy ≡ map.now) }
{
    let web = map.web().copy(alloc)?;
    let next = successors(alloc, map)?;
    match Map::make(alloc, web, &next) {
        Ok(copy) => Ok(copy),
        Err(MapErr::Memory) => Err(AllocError),
        Err(MapErr::Length) => unreachable!(),
        Err(MapErr::Rotation(_)) => unreachable!(),
    }
}

// The successor of each dart.
fn successors(alloc: Global, map: &Map) -> Result<Vec<u32>, AllocError>
    ensures { IfOk result (λ next. next.items ≡ map.now.next) }
{
    let mut next = Vec::new(alloc);
    for d in 0..2 * map.web().segments() {
        next.push(map.next(d))?;
    }
    Ok(next)
}

/// Divides the segment of d, and lets a segment lead to the new node from the corner after c, which is in the face of d.
pub fn step_over(map: &mut Map, c: u32, d: u32) -> Result<(), AllocError>
    requires map { IsListedMap map.old }
    requires c_in { c < 2 * length map.old.web.ends }
    requires d_in { d < 2 * length map.old.web.ends }
    requires one_face { Reaches (face_step (at map.old.next)) (at map.old.next c) d }
    requires flat { MeetsEuler map.old.web.nodes map.old.web.ends (at map.old.next) }
    requires few_nodes { map.old.web.nodes < 2 ^ 30 }
    requires few_segments { length map.old.web.ends + 2 ≤ 2 ^ 30 }
    ensures { OnOk result (StepsOver map.old c d map.new) }
{
    map.subdivide(d / 2)?;
    let last = map.web().segments() - 1;
    let from = Corner::After(moved(last, d / 2, c));
    let to = Corner::After(back_of(last, d));
    map.add_edge(from, to)?;
    Ok(())
}

/// The dart that stands where d stood before the segment s was divided.
pub fn moved(last: u32, s: u32, d: u32) -> u32
    requires s { s < 2 ^ 30 }
    requires last { last < 2 ^ 30 }
    ensures { result ≡ dart_now s last d }
{
    if d == 2 * s + 1 { 2 * last + 1 } else { d }
}

/// The dart that goes on in the direction of d at the node that divides its segment.
pub fn on_of(last: u32, d: u32) -> u32
    requires { last < 2 ^ 30 }
    ensures { result ≡ dart_on last d }
{
    if d % 2 == 0 {
        2 * last
    } else {
        2 * (d / 2) + 1
    }
}

// The dart that leads back there.
fn back_of(last: u32, d: u32) -> u32
    requires last { last < 2 ^ 30 }
    requires d { d < 2 ^ 31 }
    ensures { result ≡ dart_back last d }
{
    if d % 2 == 0 {
        2 * (d / 2) + 1
    } else {
        2 * last
    }
}

/// The walks once the segments with a second part are cut, and that of e is its own.
pub fn cut_walks(
    alloc: Global,
    walks: &Walks,
    cuts: &[u32],
    e: u32,
    own: Vec<u32>,
) -> Result<Walks, AllocError>
    requires within { AreWithin walks.now (2 * length cuts.now) }
    requires few { (s : ℕ) → at cuts.now s < 2 ^ 30 }
    requires edge { e < length walks.now }
    ensures { IfOk result (λ new. AreCut cuts.now e own.items walks.now new) }
{
    let mut lists = Vec::with_capacity(alloc, walks.len())?;
    for x in 0..walks.len() {
        lists.push(cut_walk(alloc, walks.at(x), cuts)?)?;
    }
    lists[e as usize] = own;
    Ok(Walks::new(lists))
}

// A walk once the segments with a second part are cut.
fn cut_walk(alloc: Global, walk: &[u32], cuts: &[u32]) -> Result<Vec<u32>, AllocError>
    requires within { (i : ℕ) → i < length walk.now → at walk.now i < 2 * length cuts.now }
    requires few { (s : ℕ) → at cuts.now s < 2 ^ 30 }
    ensures { IfOk result (λ darts. darts.items ≡ cut_darts cuts.now walk.now) }
{
    let mut darts = Vec::new(alloc);
    for d in walk {
        push_cut(&mut darts, cuts, *d)?;
    }
    Ok(darts)
}

// Appends a dart, or the two darts of its parts.
fn push_cut(darts: &mut Vec<u32>, cuts: &[u32], d: u32) -> Result<(), AllocError>
    requires within { d < 2 * length cuts.now }
    requires few { (s : ℕ) → at cuts.now s < 2 ^ 30 }
    ensures { OnOk result (darts.new.items ≡ darts.old.items ++ cut_one cuts.now d) }
{
    let last = cuts[(d / 2) as usize];
    if last == 0 {
        darts.push(d)?;
        return Ok(());
    }
    let (first, second) = if d % 2 == 0 {
        (d, 2 * last)
    } else {
        (2 * last + 1, d)
    };
    darts.push(first)?;
    darts.push(second)?;
    Ok(())
}
