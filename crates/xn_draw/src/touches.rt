// Where edges touch at a crossing.
ghost use Rattle.std.specs.Prelude.{◌≡◌, ◌+◌, ◌*◌, ◌<◌, ◌≤◌, ◌^◌, ◌↔◌, length, IsTrue, MatchOption};
ghost use Rattle.xn_model.specs.Lists.{at, total};
ghost use Rattle.xn_orders.specs.Entries.{list_of};
ghost use Rattle.xn_draw.specs.Touches.{IsLeastTouch, NoTouch, TurnsOn, TouchesFirst};

use xn_kinds::Orders;
use xn_map::Map;

/// The first two edges, in lexicographic order, that touch at their crossing.
pub fn touch(orders: &Orders, map: &Map) -> Option<(u32, u32)>
    requires few { length map.now.next ≤ 2 ^ 31 }
    requires darts { length map.now.next ≡ 2 * (length orders.now + total length orders.now) }
    ensures { let next = at map.now.next in
        MatchOption result (NoTouch orders.now next) (λ p. TouchesFirst orders.now next p.0 p.1) }
{
    let mut first = 0;
    for e in 0..orders.len() as u32 {
        if let Some(f) = touched_by(orders, map, e, first) {
            return Some((e, f));
        }
        first += orders.at(e as usize).len() as u32 + 1;
    }
    None
}

// The least later edge that an edge touches. Its segments begin with `first`.
fn touched_by(orders: &Orders, map: &Map, e: u32, first: u32) -> Option<u32>
    requires edge { e < length orders.now }
    requires few { length map.now.next ≤ 2 ^ 31 }
    requires darts { 2 * (first + length (list_of orders.now e) + 1) ≤ length map.now.next }
    ensures { let list = list_of orders.now e in IsLeastTouch list (at map.now.next) e first (length list) result }
{
    let mut least = None;
    for (i, f) in orders.at(e as usize).iter().enumerate() {
        if e < *f && !goes_straight(map, first + i as u32) {
            least = Some(least.map_or(*f, |g: u32| g.min(*f)));
        }
    }
    least
}

// Whether a segment goes straight on into the next one.
fn goes_straight(map: &Map, s: u32) -> bool
    requires few { length map.now.next ≤ 2 ^ 31 }
    requires dart { 2 * (s + 1) < length map.now.next }
    ensures { IsTrue result ↔ TurnsOn (at map.now.next) s }
{
    map.next(map.next(2 * s + 1)) == 2 * s + 2
}
