// Evidence for listed segments of a web is evidence for the web.
ghost use Rattle.std.specs.Prelude.{◌≡◌, IfOk};
ghost use Rattle.xn_genus.specs.Part.{AreSegmentsApart};
ghost use Rattle.xn_planar.specs.Named.{AreAllPlaces, ArePlaces, NamesPlaces, named, named_path, named_paths};
ghost use Rattle.xn_planar.specs.Planar.{IsEvidenceWithin};

use std::alloc::{AllocError, Global};
use xn_extend::listed_web;
use xn_graph::Web;
use xn_kinds::{Evidence, Paths};
use xn_kura::find_kind;
use xn_kura::laws::evidence_excludes_flat_maps;
use xn_kuratowski::laws::cores;

/// An evidence that uses all of the listed segments, if there is one. There is if they are a core.
pub fn evidence_within(
    alloc: Global,
    web: &Web,
    list: &[u32],
) -> Result<Option<Evidence>, AllocError>
    requires { AreSegmentsApart web.now.ends list.now }
    ensures { IfOk result (IsEvidenceWithin web.now list.now) }
{
    evidence_excludes_flat_maps();
    cores();
    let listed = listed_web(alloc, web, list)?;
    match find_kind(alloc, &listed)? {
        None => Ok(None),
        Some(evidence) => Ok(Some(renamed(alloc, &evidence, list)?)),
    }
}

// The evidence with the listed segments for their places.
fn renamed(alloc: Global, evidence: &Evidence, list: &[u32]) -> Result<Evidence, AllocError>
    requires { NamesPlaces list.now evidence.now }
    ensures { IfOk result (λ e. e ≡ named list.now evidence.now) }
{
    match evidence {
        Evidence::Five { branch, paths } => Ok(Evidence::Five {
            branch: *branch,
            paths: renamed_paths(alloc, paths, list)?,
        }),
        Evidence::ThreeThree { branch, paths } => Ok(Evidence::ThreeThree {
            branch: *branch,
            paths: renamed_paths(alloc, paths, list)?,
        }),
        Evidence::Extension { .. } => evidence.copy(alloc),
    }
}

// The paths with the listed segments for their places.
fn renamed_paths(alloc: Global, paths: &Paths, list: &[u32]) -> Result<Paths, AllocError>
    requires { AreAllPlaces list.now paths.now }
    ensures { IfOk result (λ named. named ≡ named_paths list.now paths.now) }
{
    let mut lists = Vec::new(alloc);
    for q in 0..paths.len() {
        lists.push(renamed_path(alloc, paths.at(q), list)?)?;
    }
    Ok(Paths::new(lists))
}

// A path with the listed segments for their places.
fn renamed_path(alloc: Global, path: &[u32], list: &[u32]) -> Result<Vec<u32>, AllocError>
    requires { ArePlaces list.now path.now }
    ensures { IfOk result (λ named. named.items ≡ named_path list.now path.now) }
{
    let mut named = Vec::new(alloc);
    for i in path {
        named.push(list[*i as usize])?;
    }
    Ok(named)
}
