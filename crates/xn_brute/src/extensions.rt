ghost use Rattle.std.specs.Prelude.{◌≡◌, ◌*◌, ◌/◌, ◌<◌, ◌↔◌, IfOk, IsTrue, length};
ghost use Rattle.xn_model.specs.Insertion.{GrowsFromFirst};
ghost use Rattle.xn_model.specs.Lists.{at};
ghost use Rattle.xn_brute.specs.Growth.{CanCut, CanCutFrom, CanExtend, CanGoOn, CanHang, CanInsert, CanReachEnd, IsDone, IsFirstCorner, IsGrowing, IsNext};

use crate::insertions::{in_one_face, is_corner, is_old, tail, with_dart};
use crate::lists::numbers;
use std::alloc::{AllocError, Global};
use xn_graph::Web;

/// Whether some flat insertions, in the order of the list, lead to a map of all its segments.
///
/// It tries each corner for each dart, so its time may grow exponentially with the length of the list.
pub fn extends_by_search(alloc: Global, web: &Web, list: &[u32]) -> Result<bool, AllocError>
    requires { GrowsFromFirst web.now.ends list.now }
    ensures { IfOk result (λ yes. IsTrue yes ↔ CanReachEnd web.now list.now) }
{
    match list {
        [] => Ok(false),
        [segment, later @ ..] => {
            let next = numbers(alloc, 2 * web.segments())?;
            extends(alloc, web, &[*segment], later, &next)
        }
    }
}

// A segment that is to go into a map.
#[derive(Clone, Copy)]
struct Growth<'a> {
    web: &'a Web,
    // The segments that are in.
    done: &'a [u32],
    // The one that goes in now.
    segment: u32,
    // Those that follow it.
    later: &'a [u32],
    // The rotation of the segments that are in. Each other dart is alone.
    next: &'a [u32],
}

// Whether the rest of a list can go in.
#[cycle(grow)]
fn extends(
    alloc: Global,
    web: &Web,
    done: &[u32],
    rest: &[u32],
    next: &[u32],
) -> Result<bool, AllocError>
    requires { IsGrowing web.now done.now rest.now next.now }
    ensures { IfOk result (λ yes. IsTrue yes ↔ CanExtend web.now done.now rest.now (at next.now)) }
{
    match rest {
        [] => Ok(true),
        [segment, later @ ..] => inserts(
            alloc,
            &Growth {
                web,
                done,
                segment: *segment,
                later,
                next,
            },
        ),
    }
}

// Whether the segment can go in, and then those that follow it.
#[cycle(grow)]
fn inserts(alloc: Global, growth: &Growth) -> Result<bool, AllocError>
    requires { IsNext growth.now }
    ensures { IfOk result (λ yes. IsTrue yes ↔ CanInsert growth.now) }
{
    let first = 2 * growth.segment;
    if hangs(alloc, growth, first, first + 1)? {
        return Ok(true);
    }
    if hangs(alloc, growth, first + 1, first)? {
        return Ok(true);
    }
    cuts(alloc, growth)
}

// Whether the dart d can go to a corner of its node, where the other end is new, and then those that follow.
#[cycle(grow)]
fn hangs(alloc: Global, growth: &Growth, d: u32, e: u32) -> Result<bool, AllocError>
    requires growing { IsNext growth.now }
    requires d_of { d / 2 ≡ growth.now.segment }
    requires e_of { e / 2 ≡ growth.now.segment }
    ensures { IfOk result (λ yes. IsTrue yes ↔ CanHang growth.now d e) }
{
    let web = growth.web;
    if is_old(web, growth.done, tail(web, e)) {
        return Ok(false);
    }
    for c in 0..2 * web.segments() {
        if is_corner(web, growth.done, d, c) {
            let after = with_dart(alloc, web, growth.next, c, d)?;
            if goes_on(alloc, growth, &after)? {
                return Ok(true);
            }
        }
    }
    Ok(false)
}

// Whether the two darts can go to corners of one face, and then those that follow.
#[cycle(grow)]
fn cuts(alloc: Global, growth: &Growth) -> Result<bool, AllocError>
    requires { IsNext growth.now }
    ensures { IfOk result (λ yes. IsTrue yes ↔ CanCut growth.now) }
{
    for c in 0..2 * growth.web.segments() {
        if is_corner(growth.web, growth.done, 2 * growth.segment, c)
            && cuts_from(alloc, growth, c)?
        {
            return Ok(true);
        }
    }
    Ok(false)
}

// The same, where the first dart goes to the corner after c.
#[cycle(grow)]
fn cuts_from(alloc: Global, growth: &Growth, c: u32) -> Result<bool, AllocError>
    requires growing { IsNext growth.now }
    requires c_in { c < 2 * length growth.now.web.now.ends }
    requires corner { IsFirstCorner growth.now c }
    ensures { IfOk result (λ yes. IsTrue yes ↔ CanCutFrom growth.now c) }
{
    let (web, next) = (growth.web, growth.next);
    let first = 2 * growth.segment;
    for b in 0..2 * web.segments() {
        if is_corner(web, growth.done, first + 1, b)
            && in_one_face(web, next, next[c as usize], next[b as usize])
        {
            let between = with_dart(alloc, web, next, c, first)?;
            let after = with_dart(alloc, web, &between, b, first + 1)?;
            if goes_on(alloc, growth, &after)? {
                return Ok(true);
            }
        }
    }
    Ok(false)
}

// Whether those that follow can go in after the segment.
#[cycle(grow)]
fn goes_on(alloc: Global, growth: &Growth, after: &[u32]) -> Result<bool, AllocError>
    requires { IsDone growth.now after.now }
    ensures { IfOk result (λ yes. IsTrue yes ↔ CanGoOn growth.now (at after.now)) }
{
    let mut done = Vec::new(alloc);
    done.push(growth.segment)?;
    done.extend_from_slice(growth.done)?;
    extends(alloc, growth.web, &done, growth.later, after)
}
