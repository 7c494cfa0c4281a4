ghost use Rattle.std.specs.Prelude.{◌≡◌, ◌≢◌, ◌^◌, ◌<◌, IfOk, OnErr, OnOk, length};
ghost use Rattle.xn_model.specs.Map.{tail_of};
ghost use Rattle.xn_map.specs.Changes.{StaysFlat};
ghost use Rattle.xn_map.specs.Cutting.{Splits};

use std::alloc::AllocError;
use xn_map::Map;

/// Moves a dart and those that follow it, up to the one before another dart b of its node, to a new node, and answers that:
/// the last. On both sides the darts keep their cyclic order, and a flat map stays flat. After want of memory the map is
/// as before.
pub fn split_node(map: &mut Map, a: u32, b: u32) -> Result<u32, AllocError>
    requires few { map.old.web.nodes < 2 ^ 30 }
    requires a_in { a < length map.old.next }
    requires b_in { b < length map.old.next }
    requires differ { a ≢ b }
    requires one_node { tail_of map.old.web.ends a ≡ tail_of map.old.web.ends b }
    ensures node { IfOk result (λ v. v ≡ map.old.web.nodes) }
    ensures ok { OnOk result (Splits map.old a b map.new) }
    ensures err { OnErr result (map.new ≡ map.old) }
    ensures flat { StaysFlat map.old map.new }
{
    map.cut_node(a, b)
}
