// Lists of numbers.
ghost use Rattle.std.specs.Prelude.{◌≡◌, ◌≤◌, ◌∷◌, ◌++◌, [], IfOk, length};
ghost use Rattle.std.specs.List.{range_with_len};
ghost use Rattle.xn_model.specs.Lists.{at, has, position_in};

use std::alloc::{AllocError, Global};

/// Whether x stands in the list.
pub fn has(list: &[u32], x: u32) -> bool
    ensures { result ≡ has list.now x }
{
    list.iter().any(|y| *y == x)
}

/// The first position of x, or the length.
pub fn position_in(list: &[u32], x: u32) -> usize
    ensures position { result ≡ position_in list.now x }
    ensures few { result ≤ length list.now }
{
    for (i, y) in list.iter().enumerate() {
        if *y == x {
            return i;
        }
    }
    list.len()
}

/// The numbers below n.
pub fn numbers(alloc: Global, n: u32) -> Result<Vec<u32>, AllocError>
    ensures { IfOk result (λ v. v.items ≡ range_with_len 0 n) }
{
    (0..n).collect(alloc)
}

/// The entry at a place, or 0.
pub fn at(list: &[u32], i: usize) -> usize
    ensures { result ≡ at list.now i }
{
    if i < list.len() { list[i] as usize } else { 0 }
}

/// The list with one more number.
pub fn appended(alloc: Global, list: &[u32], x: u32) -> Result<Vec<u32>, AllocError>
    ensures { IfOk result (λ more. more.items ≡ list.now ++ x ∷ []) }
{
    let mut more = list.to_vec(alloc)?;
    more.push(x)?;
    Ok(more)
}
