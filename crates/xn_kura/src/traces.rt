// Paths that go straight on through nodes with two darts.
ghost use Rattle.std.specs.Prelude.{◌≡◌, ◌≢◌, ℕ, ◌*◌, ◌<◌, IfOk, length};
ghost use Rattle.xn_model.specs.Map.{tail_of};
ghost use Rattle.xn_kura.specs.Straight.{IsStraightBetween, IsStraightBy, IsTraceOf, path_in, trace_in};
ghost use Rattle.xn_model.specs.Loose.{dart_count};

use std::alloc::{AllocError, Global};
use xn_graph::{Stars, Web};

/// A path, and the node at which it ends.
#[derive(Drop)]
pub struct Trace {
    pub end: u32,
    pub path: Vec<u32>,
}

/// The other dart at the node of a dart, which has two.
fn other_dart(web: &Web, stars: &Stars, d: u32) -> u32
    requires stars { stars.now ≡ web.now }
    requires dart { d < 2 * length web.now.ends }
    requires two { dart_count web.now.ends (tail_of web.now.ends d) ≡ 2 }
    ensures below { result < 2 * length web.now.ends }
    ensures other { (z : ℕ) → z < 2 * length web.now.ends → tail_of web.now.ends z ≡ tail_of web.now.ends d → z ≢ d → result ≡ z }
{
    let star = stars.at(web.tail(d));
    if star[0] == d { star[1] } else { star[0] }
}

/// The straight path that a dart begins.
fn follow(alloc: Global, web: &Web, stars: &Stars, d: u32) -> Result<Option<Trace>, AllocError>
    requires stars { stars.now ≡ web.now }
    requires dart { d < 2 * length web.now.ends }
    ensures { IfOk result (λ found. IsTraceOf web.now.ends d (trace_in found)) }
{
    let mut path = Vec::new(alloc);
    let mut dart = d;
    for _ in 0..web.segments() {
        path.push(dart / 2)?;
        let end = web.tail(dart ^ 1);
        if stars.at(end).len() != 2 {
            return Ok(Some(Trace { end, path }));
        }
        dart = other_dart(web, stars, dart ^ 1);
    }
    Ok(None)
}

/// The straight path from u to v that a dart begins, if it begins one.
fn path_by(
    alloc: Global,
    web: &Web,
    stars: &Stars,
    u: u32,
    v: u32,
    d: u32,
) -> Result<Option<Vec<u32>>, AllocError>
    requires stars { stars.now ≡ web.now }
    requires dart { d < 2 * length web.now.ends }
    ensures { IfOk result (λ found. IsStraightBy web.now.ends u v d (path_in found)) }
{
    if web.tail(d) != u {
        return Ok(None);
    }
    match follow(alloc, web, stars, d)? {
        None => Ok(None),
        Some(trace) => {
            if trace.end == v {
                Ok(Some(trace.path))
            } else {
                Ok(None)
            }
        }
    }
}

/// A straight path from u to v, if there is one.
pub fn path_between(
    alloc: Global,
    web: &Web,
    stars: &Stars,
    u: u32,
    v: u32,
) -> Result<Option<Vec<u32>>, AllocError>
    requires stars { stars.now ≡ web.now }
    ensures { IfOk result (λ found. IsStraightBetween web.now.ends u v (path_in found)) }
{
    for d in 0..2 * web.segments() {
        if let Some(path) = path_by(alloc, web, stars, u, v, d)? {
            return Ok(Some(path));
        }
    }
    Ok(None)
}
