// Numbers in lists, and edges in the lists of a row.
ghost use Rattle.std.specs.Prelude.{◌≡◌, ◌*◌, ◌^◌, ◌<◌, ◌≤◌, true, false, length, MatchOption};
ghost use Rattle.std.specs.List.Sorted.{IsStrictlyIncreasing};
ghost use Rattle.xn_model.specs.Lists.{has, one_if, position_in};
ghost use Rattle.xn_kinds.specs.Row.{orders_of};

use xn_kinds::Row;

/// Whether x stands in the list.
pub fn has(list: &[u32], x: u32) -> bool
    ensures { result ≡ has list.now x }
{
    list.iter().any(|y| *y == x)
}

/// Whether the edge is one of the row.
pub fn is_edge(row: &Row, e: u32) -> bool
    requires { IsStrictlyIncreasing row.now.edges }
    ensures { result ≡ has row.now.edges e }
{
    row.edges.as_slice().binary_search(&e).is_ok()
}

/// The list of an edge in the orders of a row, if the edge is one of the row.
pub fn order_of(row: &Row, e: u32) -> Option<&[u32]>
    requires rise { IsStrictlyIncreasing row.now.edges }
    requires lists_fit { length row.now.orders ≡ length row.now.edges }
    ensures edge { MatchOption result (has row.now.edges e ≡ false) (λ list. has row.now.edges e ≡ true) }
    ensures list { MatchOption result (has row.now.edges e ≡ false) (λ list. list.now ≡ orders_of row.now e) }
{
    match row.edges.as_slice().binary_search(&e) {
        Ok(i) => Some(row.orders.at(i)),
        Err(_) => None,
    }
}

/// The multiplier, or 0.
pub fn weighed(multiplier: u64, counts: bool) -> u128
    ensures weighed { result ≡ multiplier * one_if counts }
    ensures small { result < 2 ^ 64 }
{
    if counts { u128::from(multiplier) } else { 0 }
}

/// The first position of x, or the length.
pub fn position_in(list: &[u32], x: u32) -> usize
    ensures position { result ≡ position_in list.now x }
    ensures few { result ≤ length list.now }
{
    for (i, y) in list.iter().enumerate() {
        if *y == x {
            return i;
        }
    }
    list.len()
}
