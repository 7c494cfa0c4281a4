// Sums and products of fractions whose numbers lie below 2^31, in 64 bits.
ghost use Rattle.std.specs.Prelude.{◌≡◌, ◌/◌, ◌^◌, ◌<◌, ◌≤◌, pos, ◌*ℤ◌, unsigned_abs};
ghost use Rattle.std.specs.Int.{IsGcd, is_negative};
ghost use Rattle.xn_frac.specs.Ratio.{plus, times, CanAdd, IsFracOf, signed};
ghost use Rattle.xn_frac.specs.Small.{IsShort};

use crate::whole::{short_gcd, short_gcds};

/// The sum of a / b and c / d in lowest terms. What the numerator and the denominator over the common part of b and d
/// have in common is in that part too (Knuth, The Art of Computer Programming, volume 2, 4.5.1).
pub fn sum(a: i64, b: u64, c: i64, d: u64) -> (i64, u64)
    requires left { IsShort (record { num = a; den = b }) }
    requires right { IsShort (record { num = c; den = d }) }
    ensures fits { CanAdd (record { num = a; den = b }) (record { num = c; den = d }) }
    ensures value { IsFracOf (plus (record { num = a; den = b }) (record { num = c; den = d })) (record { num = result.0; den = result.1 }) }
    ensures bound { unsigned_abs result.0 < 2 ^ 63 }
{
    let common = short_gcd(b, d);
    let left_part = quotient(b, common);
    let num = scaled(a, quotient(d, common)) + scaled(c, left_part);
    let shared = gcd_below(num.unsigned_abs(), common);
    (reduced(num, shared), quotient(left_part * d, shared))
}

/// The product of a / b and c / d in lowest terms.
pub fn product(a: i64, b: u64, c: i64, d: u64) -> (i64, u64)
    requires left { IsShort (record { num = a; den = b }) }
    requires right { IsShort (record { num = c; den = d }) }
    ensures value { IsFracOf (times (record { num = a; den = b }) (record { num = c; den = d })) (record { num = result.0; den = result.1 }) }
    ensures bound { unsigned_abs result.0 < 2 ^ 63 }
{
    let (left_size, right_size) = (a.unsigned_abs(), c.unsigned_abs());
    let (first, second) = short_gcds(left_size, d, right_size, b);
    let size = quotient(left_size, first) * quotient(right_size, second);
    let den = quotient(b, second) * quotient(d, first);
    (with_sign((a < 0) != (c < 0), size), den)
}

// The greatest common divisor of a and the number b, which is mostly the lesser.
fn gcd_below(a: u64, b: u64) -> u64
    requires { 0 < b }
    ensures { IsGcd a b result }
{
    if b == 1 { 1 } else { short_gcd(b, a % b) }
}

// The whole part of a / b, which is mostly a / 1.
fn quotient(a: u64, b: u64) -> u64
    requires { 0 < b }
    ensures value { result ≡ a / b }
    ensures bound { result ≤ a }
{
    if b == 1 { a } else { a / b }
}

// n * k.
fn scaled(n: i64, k: u64) -> i64
    requires num { unsigned_abs n < 2 ^ 31 }
    requires factor { k < 2 ^ 31 }
    ensures value { result ≡ n *ℤ pos k }
    ensures bound { unsigned_abs result < 2 ^ 62 }
{
    n * k as i64
}

// n without the divisor g.
fn reduced(n: i64, g: u64) -> i64
    requires above { 0 < g }
    requires small { unsigned_abs n < 2 ^ 63 }
    ensures value { result ≡ signed (is_negative n) (unsigned_abs n / g) }
    ensures bound { unsigned_abs result < 2 ^ 63 }
{
    if g == 1 {
        n
    } else {
        with_sign(n < 0, n.unsigned_abs() / g)
    }
}

// -size or size.
fn with_sign(negative: bool, size: u64) -> i64
    requires { size < 2 ^ 63 }
    ensures { result ≡ signed negative size }
{
    let size = size as i64;
    if negative { -size } else { size }
}
