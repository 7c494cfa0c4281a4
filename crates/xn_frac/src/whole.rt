//! Whole numbers for fractions. Where both numbers are below 2^64 a division is one of 64 bits.
ghost use Rattle.std.specs.Prelude.{◌≡◌, ◌≢◌, ℕ, ◌+◌, ◌*◌, ◌/◌, ◌%◌, ◌^◌, ◌<◌, ◌↔◌, ℤ, pos, ◌+ℤ◌, ◌*ℤ◌, IsTrue};
ghost use Rattle.std.specs.Int.{IsGcd};
ghost use Rattle.std.specs.Option.{SomeIff};
ghost use Rattle.xn_frac.specs.Ratio.{IsInRange, signed};
ghost use Rattle.xn_frac.specs.Small.{AreOdd};

/// The greatest common divisor, by Euclid's algorithm.
pub fn gcd(a: u128, b: u128) -> u128
    ensures { IsGcd a b result }
{
    let mut x = a;
    let mut y = b;
    while y != 0 {
        if x < 1 << 64 && y < 1 << 64 {
            return u128::from(short_gcd(x as u64, y as u64));
        }
        let rest = x % y;
        x = y;
        y = rest;
    }
    x
}

/// The same of two numbers of 64 bits, by halving and differences (Stein 1967).
pub fn short_gcd(a: u64, b: u64) -> u64
    ensures { IsGcd a b result }
{
    if a == 0 {
        return b;
    }
    if b == 0 {
        return a;
    }
    if a == 1 || b == 1 {
        return 1;
    }
    let (m, n) = (a.trailing_zeros(), b.trailing_zeros());
    odd_gcd(a >> m, b >> n) << m.min(n)
}

/// The greatest common divisors of a and b and of c and d, side by side, since a processor takes steps of both at once.
pub fn short_gcds(a: u64, b: u64, c: u64, d: u64) -> (u64, u64)
    ensures first { IsGcd a b result.0 }
    ensures second { IsGcd c d result.1 }
{
    if a <= 1 || b <= 1 || c <= 1 || d <= 1 {
        return (short_gcd(a, b), short_gcd(c, d));
    }
    let (i, j) = (a.trailing_zeros(), b.trailing_zeros());
    let (k, l) = (c.trailing_zeros(), d.trailing_zeros());
    let (first, second) = odd_gcds(a >> i, b >> j, c >> k, d >> l);
    (first << i.min(j), second << k.min(l))
}

// The same of odd numbers.
fn odd_gcds(a: u64, b: u64, c: u64, d: u64) -> (u64, u64)
    requires first { AreOdd a b }
    requires second { AreOdd c d }
    ensures first { IsGcd a b result.0 }
    ensures second { IsGcd c d result.1 }
{
    let (mut x, mut y, mut z, mut w) = (a, b, c, d);
    while x != y && z != w {
        (x, y) = odd_step(x, y);
        (z, w) = odd_step(z, w);
    }
    (odd_gcd(x, y), odd_gcd(z, w))
}

// The greatest common divisor of two odd numbers.
fn odd_gcd(a: u64, b: u64) -> u64
    requires { AreOdd a b }
    ensures { IsGcd a b result }
{
    let (mut x, mut y) = (a, b);
    while x != y {
        (x, y) = odd_step(x, y);
    }
    x
}

// The lesser of two odd numbers, and their difference without its factors 2.
fn odd_step(x: u64, y: u64) -> (u64, u64)
    requires odd { AreOdd x y }
    requires differ { x ≢ y }
    ensures odd { AreOdd result.0 result.1 }
    ensures less { result.0 + result.1 < x + y }
    ensures same { (g : ℕ) → IsGcd result.0 result.1 g → IsGcd x y g }
{
    let gap = x.abs_diff(y);
    (x.min(y), gap >> gap.trailing_zeros())
}

/// The whole part of a / b.
pub fn quotient(a: u128, b: u128) -> u128
    requires { 0 < b }
    ensures { result ≡ a / b }
{
    if a < 1 << 64 && b < 1 << 64 {
        u128::from(a as u64 / b as u64)
    } else {
        a / b
    }
}

/// The product, if it is in range.
pub fn product(a: u128, b: u128) -> Option<u128>
    ensures { SomeIff result (IsInRange (pos (a * b))) (a * b) }
{
    if a < 1 << 63 && b < 1 << 63 {
        return Some(a * b);
    }
    let size = a.checked_mul(b)?;
    if size < 1 << 127 { Some(size) } else { None }
}

/// -size or size.
pub fn with_sign(negative: bool, size: u128) -> i128
    requires { size < 2 ^ 127 }
    ensures { result ≡ signed negative size }
{
    let size = size as i128;
    if negative { -size } else { size }
}

/// The sum, if it is in range.
pub fn sum(m: i128, n: i128) -> Option<i128>
    ensures { SomeIff result (IsInRange (m +ℤ n)) (m +ℤ n) }
{
    let total = m.checked_add(n)?;
    if total != i128::MIN {
        Some(total)
    } else {
        None
    }
}

/// n * k, if it is in range.
pub fn scaled(n: i128, k: u128) -> Option<i128>
    ensures { SomeIff result (IsInRange (n *ℤ pos k)) (n *ℤ pos k) }
{
    let size = product(n.unsigned_abs(), k)?;
    Some(with_sign(n < 0, size))
}

/// Whether a / b is below c / d. Short numbers are compared by two products; of others the whole parts are compared and,
/// where these agree, the parts that are left, each turned over.
pub fn is_below(a: u128, b: u128, c: u128, d: u128) -> bool
    requires left { 0 < b }
    requires right { 0 < d }
    ensures { IsTrue result ↔ (a * d < c * b) }
{
    if a < 1 << 63 && b < 1 << 63 && c < 1 << 63 && d < 1 << 63 {
        return a * d < c * b;
    }
    let (mut p, mut q, mut r, mut s) = (a, b, c, d);
    loop {
        let (left, right) = (p / q, r / s);
        if left != right {
            return left < right;
        }
        let (left_rest, right_rest) = (p % q, r % s);
        if right_rest == 0 {
            return false;
        }
        if left_rest == 0 {
            return true;
        }
        (p, q, r, s) = (s, right_rest, q, left_rest);
    }
}
