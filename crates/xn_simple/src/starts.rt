// The darts at the ends and the crossings of the edges.
ghost use Rattle.std.specs.Prelude.{◌≡◌, ◌++◌, ◌+◌, ◌*◌, ◌^◌, ◌<◌, ◌≤◌, length, OnOk};
ghost use Rattle.xn_model.specs.Lists.{at, total};
ghost use Rattle.xn_simple.specs.Crossed.{starts_along, starts_of};

use crate::crossed::runs_straight;
use std::alloc::AllocError;
use xn_kinds::Orders;
use xn_map::Map;

/// Appends, along each edge, the darts at its ends and at its crossings: two for each segment that is left.
pub fn push_starts(starts: &mut Vec<u32>, orders: &Orders, map: &Map) -> Result<(), AllocError>
    requires few { length map.now.next ≤ 2 ^ 31 }
    requires darts { length map.now.next ≡ 2 * (length orders.now + total length orders.now) }
    ensures { OnOk result (starts.new.items ≡ starts.old.items ++ starts_of (at map.now.next) 0 orders.now) }
{
    let mut first = 0;
    for e in 0..orders.len() {
        let list = orders.at(e);
        push_along(starts, map, first, list)?;
        first += list.len() as u32 + 1;
    }
    Ok(())
}

// Appends those of an edge. Its segments begin with `first`.
fn push_along(starts: &mut Vec<u32>, map: &Map, first: u32, list: &[u32]) -> Result<(), AllocError>
    requires few { length map.now.next ≤ 2 ^ 31 }
    requires darts { 2 * (first + length list.now + 1) ≤ length map.now.next }
    ensures { OnOk result (starts.new.items ≡ starts.old.items ++ starts_along (at map.now.next) first list.now) }
{
    starts.push(2 * first)?;
    let end = first + list.len() as u32;
    for s in first..end {
        if runs_straight(map, s) {
            starts.push(2 * s + 1)?;
            starts.push(2 * s + 2)?;
        }
    }
    starts.push(2 * end + 1)?;
    Ok(())
}
