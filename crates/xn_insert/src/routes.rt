// A least route between two nodes of a map.
ghost use Rattle.std.specs.Prelude.{◌≡◌, ℕ, ◌%◌, ◌^◌, ◌≤◌, ◌<◌, IfNone, IfOk, IfSome, length};
ghost use Rattle.xn_model.specs.Lists.{at};
ghost use Rattle.xn_insert.specs.Routed.{HasNoRoute, IsDual, IsLeastRoute};
ghost use Rattle.xn_insert.specs.Search.{IsFoundRoute, NoneFound};

use crate::faces::{corners_at, dual_stars, face_names};
use crate::searching::{nearest, read_back};
use std::alloc::{AllocError, Global};
use xn_graph::Stars;
use xn_map::Map;

/// A route over the listed darts, from the corner after one dart to the corner after another.
#[derive(Drop)]
pub struct Route {
    pub from: u32,
    pub darts: Vec<u32>,
    pub to: u32,
}

/// A route from u to v that crosses as few segments as can be, if there is a route. Each face and each dart is met once.
pub fn least_route(alloc: Global, map: &Map, u: u32, v: u32) -> Result<Option<Route>, AllocError>
    requires few { length map.now.next ≤ 2 ^ 30 }
    ensures none { IfOk result (λ route. IfNone route (HasNoRoute map.now u v)) }
    ensures some { IfOk result (λ route. IfSome route (λ r. IsLeastRoute map.now u v r.from r.darts.items r.to)) }
{
    // it is a map
    map.web();
    let names = face_names(alloc, map)?;
    let names = names.as_slice();
    let stars = dual_stars(alloc, names)?;
    let starts = corners_at(alloc, map, names, u)?;
    let mut by = corners_at(alloc, map, names, v)?;
    let route = route_between(alloc, &stars, names, starts.as_slice(), by.as_mut_slice())?;
    Ok(route)
}

// A least route from a start to a goal, by the names of faces.
fn route_between(
    alloc: Global,
    stars: &Stars,
    names: &[u32],
    starts: &[u32],
    by: &mut [u32],
) -> Result<Option<Route>, AllocError>
    requires few { length names.now ≤ 2 ^ 30 }
    requires even { length names.now % 2 ≡ 0 }
    requires dual { IsDual names.now stars.now }
    requires below { (d : ℕ) → d < length names.now → at names.now d < length names.now }
    requires starts { length starts.now ≡ length names.now }
    requires goals { length by.old ≡ length names.now }
    requires marks { (x : ℕ) → x < length names.now → at by.old x ≤ length names.now }
    ensures none { IfOk result (λ route. IfNone route (NoneFound names.now by.old starts.now)) }
    ensures some { IfOk result (λ route. IfSome route (λ r. IsFoundRoute names.now by.old starts.now r.from r.darts.items r.to)) }
{
    let Some((face, steps)) = nearest(alloc, stars, names, starts, by)? else {
        return Ok(None);
    };
    let (darts, end) = read_back(alloc, names, by, face, steps)?;
    Ok(Some(Route {
        from: starts[face as usize],
        darts,
        to: by[end as usize],
    }))
}
