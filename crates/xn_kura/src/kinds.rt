// The evidence that uses a whole web: proposed along the straight paths, then judged.
ghost use Rattle.std.specs.Prelude.{◌≡◌, ◌^◌, ◌<◌, ◌≤◌, ◌↔◌, IfOk, IsTrue, length, nat_eq};
ghost use Rattle.std.specs.List.{IsDistinct, concat};
ghost use Rattle.xn_kinds.specs.Row.{EvidenceHolds};
ghost use Rattle.xn_kura.specs.Flaws.{HasAKind, PairsWithin};
ghost use Rattle.xn_kura.specs.Kinds.{AreNodesWith, ArePathsFor, AreSides, IsFoundFive, IsFoundIn, IsFoundThree, IsJudged, UsesAll, paths_of};

use crate::evidence::{FIVE_PAIRS, THREE_PAIRS, holds};
use crate::marks::Marks;
use crate::traces::path_between;
use std::alloc::{AllocError, Global};
use xn_graph::{Stars, Web};
use xn_kinds::{Evidence, Paths};

/// An evidence of either kind that holds for the web and uses each of its segments, if there is one.
///
/// Its time is linear in the web. It fails only for want of memory.
pub fn find_kind(alloc: Global, web: &Web) -> Result<Option<Evidence>, AllocError>
    ensures { IfOk result (IsFoundIn web.now) }
{
    let stars = Stars::of(alloc, web)?;
    if let Some(five) = find_five(alloc, web, &stars)? {
        return Ok(Some(five));
    }
    find_three_three(alloc, web, &stars)
}

/// A Five that holds and uses each segment, if there is one.
fn find_five(alloc: Global, web: &Web, stars: &Stars) -> Result<Option<Evidence>, AllocError>
    requires stars { stars.now ≡ web.now }
    ensures { IfOk result (IsFoundFive web.now) }
{
    let nodes = nodes_with(alloc, web, stars, 4)?;
    if nodes.len() != 5 {
        return Ok(None);
    }
    let branch = [nodes[0], nodes[1], nodes[2], nodes[3], nodes[4]];
    match paths_between(alloc, web, stars, &FIVE_PAIRS, &branch)? {
        None => Ok(None),
        Some(paths) => judged(alloc, web, Evidence::Five { branch, paths }),
    }
}

/// A ThreeThree that holds and uses each segment, if there is one.
fn find_three_three(alloc: Global, web: &Web, stars: &Stars) -> Result<Option<Evidence>, AllocError>
    requires stars { stars.now ≡ web.now }
    ensures { IfOk result (IsFoundThree web.now) }
{
    let nodes = nodes_with(alloc, web, stars, 3)?;
    if nodes.len() != 6 {
        return Ok(None);
    }
    let Sides { near, far } = sides_of(alloc, web, stars, nodes.as_slice())?;
    if near.len() != 3 || far.len() != 3 {
        return Ok(None);
    }
    let branch = [near[0], near[1], near[2], far[0], far[1], far[2]];
    match paths_between(alloc, web, stars, &THREE_PAIRS, &branch)? {
        None => Ok(None),
        Some(paths) => judged(alloc, web, Evidence::ThreeThree { branch, paths }),
    }
}

/// The nodes with this many darts, rising.
fn nodes_with(alloc: Global, web: &Web, stars: &Stars, count: usize) -> Result<Vec<u32>, AllocError>
    requires stars { stars.now ≡ web.now }
    ensures { IfOk result (λ nodes. AreNodesWith web.now.ends web.now.nodes count nodes.items) }
{
    let mut nodes = Vec::new(alloc);
    for v in 0..web.nodes() {
        if stars.at(v).len() == count {
            nodes.push(v)?;
        }
    }
    Ok(nodes)
}

/// The nodes on the side of the first of six, and those on the other side.
#[derive(Drop)]
struct Sides {
    near: Vec<u32>,
    far: Vec<u32>,
}

/// Parts nodes into those to which no straight path leads from the first of them, and those to which one leads.
fn sides_of(alloc: Global, web: &Web, stars: &Stars, nodes: &[u32]) -> Result<Sides, AllocError>
    requires stars { stars.now ≡ web.now }
    requires some { 0 < length nodes.now }
    requires once { IsDistinct nat_eq nodes.now }
    ensures { IfOk result (λ sides. AreSides web.now.ends nodes.now sides.near.items sides.far.items) }
{
    let mut near = Vec::new(alloc);
    let mut far = Vec::new(alloc);
    for &v in nodes {
        if path_between(alloc, web, stars, nodes[0], v)?.is_some() {
            far.push(v)?;
        } else {
            near.push(v)?;
        }
    }
    Ok(Sides { near, far })
}

/// A straight path for each pair of these nodes, if there are such paths.
fn paths_between(
    alloc: Global,
    web: &Web,
    stars: &Stars,
    pairs: &[(usize, usize)],
    nodes: &[u32],
) -> Result<Option<Paths>, AllocError>
    requires stars { stars.now ≡ web.now }
    requires pairs { PairsWithin (length nodes.now) pairs.now }
    ensures { IfOk result (ArePathsFor web.now.ends pairs.now nodes.now) }
{
    let mut lists = Vec::new(alloc);
    for &(i, j) in pairs {
        match path_between(alloc, web, stars, nodes[i], nodes[j])? {
            None => return Ok(None),
            Some(path) => lists.push(path)?,
        }
    }
    Ok(Some(Paths::new(lists)))
}

/// The evidence, if it holds and uses each segment of the web.
fn judged(alloc: Global, web: &Web, evidence: Evidence) -> Result<Option<Evidence>, AllocError>
    requires kind { HasAKind evidence }
    ensures { IfOk result (IsJudged web.now evidence) }
{
    let mut marks = Marks::new(alloc, web)?;
    if holds(web, &evidence, &mut marks).is_ok() && uses_all(web, &evidence) {
        Ok(Some(evidence))
    } else {
        Ok(None)
    }
}

/// Whether each segment of the web is in one of the paths of an evidence that holds.
fn uses_all(web: &Web, evidence: &Evidence) -> bool
    requires kind { HasAKind evidence.now }
    requires holds { EvidenceHolds web.now evidence.now }
    ensures { IsTrue result ↔ UsesAll web.now (paths_of evidence.now) }
{
    match evidence {
        Evidence::Five { paths, .. } | Evidence::ThreeThree { paths, .. } => {
            web.segments() as usize == segments_in(paths)
        }
        // `kind` rules it out
        Evidence::Extension { .. } => false,
    }
}

/// The number of segments in paths.
fn segments_in(paths: &Paths) -> usize
    requires { length (concat paths.now) ≤ 2 ^ 30 }
    ensures { result ≡ length (concat paths.now) }
{
    let mut count = 0;
    for q in 0..paths.len() {
        count += paths.at(q).len();
    }
    count
}
