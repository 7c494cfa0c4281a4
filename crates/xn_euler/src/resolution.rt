ghost use Rattle.std.specs.Prelude.{◌≡◌, ◌≢◌, ℕ, ◌^◌, ◌<◌, OnErr, OnOk, length};
ghost use Rattle.xn_model.specs.Map.{tail_of};
ghost use Rattle.xn_map.specs.Changes.{StaysFlat};
ghost use Rattle.xn_map.specs.Listed.{IsListedMap};
ghost use Rattle.xn_euler.specs.Resolving.{AreFourDarts, CanResolve, IsCutBetween, Resolves};

use std::alloc::AllocError;
use xn_map::Map;

/// Which two of the four darts at a node come together. In the rotation from the least dart on, they are:
#[derive(Clone, Copy, Debug, PartialEq, Eq)]
pub enum Way {
    /// The first and the second, and the third and the fourth.
    First,
    /// The second and the third, and the fourth and the first.
    Second,
}

/// Takes away a node with four darts: each two darts that come together become one segment.
///
/// The node is split before its first and its third dart, or before its second and its fourth, and the new node and then
/// the old one is passed over as by `smooth`. A flat map stays flat. After want of memory the map is as before.
pub fn resolve(map: &mut Map, v: u32, how: Way) -> Result<(), AllocError>
    requires few { map.old.web.nodes < 2 ^ 30 }
    requires four { CanResolve map.old v how }
    ensures ok { OnOk result (Resolves map.old v how map.new) }
    ensures err { OnErr result (map.new ≡ map.old) }
    ensures flat { StaysFlat map.old map.new }
{
    let (from, to) = cut(map, v, how);
    let new = map.cut_node(from, to)?;
    map.pass_node(new);
    map.pass_node(v);
    Ok(())
}

// The darts before which a node is split.
fn cut(map: &Map, v: u32, how: Way) -> (u32, u32)
    requires { CanResolve map.now v how }
    ensures map { IsListedMap map.now }
    ensures cut { IsCutBetween map.now v how result.0 result.1 }
{
    let a = least_dart(map, v);
    let b = map.next(a);
    let c = map.next(b);
    match how {
        Way::First => (a, c),
        Way::Second => (b, map.next(c)),
    }
}

// The least dart of a node that has four.
fn least_dart(map: &Map, v: u32) -> u32
    requires { (a b c d : ℕ) × AreFourDarts map.now v a b c d }
    ensures map { IsListedMap map.now }
    ensures dart { result < length map.now.next }
    ensures node { tail_of map.now.web.ends result ≡ v }
    ensures least { (d : ℕ) → d < result → tail_of map.now.web.ends d ≢ v }
{
    let Some(d) = map.dart_of(v) else {
        unreachable!()
    };
    let e = map.next(d);
    let f = map.next(e);
    d.min(e).min(f).min(map.next(f))
}
