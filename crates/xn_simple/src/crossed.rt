// The lists of the edges that cross and don't touch.
ghost use Rattle.std.specs.Prelude.{◌≡◌, ◌++◌, ◌+◌, ◌*◌, ◌^◌, ◌<◌, ◌≤◌, suc, length, IfOk, OnOk};
ghost use Rattle.xn_model.specs.Lists.{at, total};
ghost use Rattle.xn_simple.specs.Crossed.{crossed_from, crossed_lists, runs_straight};

use std::alloc::{AllocError, Global};
use xn_kinds::Orders;
use xn_map::Map;

/// Appends for each edge those of its list that cross it, and don't touch.
pub fn push_crossed(
    alloc: Global,
    crossed: &mut Orders,
    orders: &Orders,
    map: &Map,
) -> Result<(), AllocError>
    requires few { length map.now.next ≤ 2 ^ 31 }
    requires darts { length map.now.next ≡ 2 * (length orders.now + total length orders.now) }
    ensures { OnOk result (crossed.new ≡ crossed.old ++ crossed_lists (at map.now.next) 0 orders.now) }
{
    let mut first = 0;
    for e in 0..orders.len() {
        let list = orders.at(e);
        crossed.push(crossed_by(alloc, map, first, list)?)?;
        first += list.len() as u32 + 1;
    }
    Ok(())
}

// Those of the list of an edge that cross it. Its segments begin with `first`.
fn crossed_by(alloc: Global, map: &Map, first: u32, list: &[u32]) -> Result<Vec<u32>, AllocError>
    requires few { length map.now.next ≤ 2 ^ 31 }
    requires darts { 2 * (first + length list.now + 1) ≤ length map.now.next }
    ensures { IfOk result (λ crossed. crossed.items ≡ crossed_from (at map.now.next) first list.now) }
{
    let mut crossed = Vec::new(alloc);
    let mut s = first;
    for f in list {
        if runs_straight(map, s) {
            crossed.push(*f)?;
        }
        s += 1;
    }
    Ok(crossed)
}

/// Whether a segment goes straight on into the next one.
pub fn runs_straight(map: &Map, s: u32) -> bool
    requires few { length map.now.next ≤ 2 ^ 31 }
    requires dart { 2 * suc s < length map.now.next }
    ensures { result ≡ runs_straight (at map.now.next) s }
{
    map.next(map.next(2 * s + 1)) == 2 * s + 2
}
