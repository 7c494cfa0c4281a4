// Numbers with 36 bits after the point. No operation asks that its answer fits: nothing rests on these.

/// One, in the fixed point of the table: 36 bits after the point.
pub const ONE: i64 = 1 << 36;

const BITS: u32 = 36;

const HALF: i128 = 1 << 35;

const INVERSE_BITS: u32 = 40;

const HALF_INVERSE: i128 = 1 << 39;

const LOW_WORD: u128 = u64::MAX as u128;

/// The product, rounded to the nearest. It wraps: a test for each product would double the time of a pivot.
pub fn product(a: i64, b: i64) -> i64 {
    let scaled = (a as i128).wrapping_mul(b as i128).wrapping_add(HALF) >> BITS;
    ((scaled.cast_unsigned() & LOW_WORD) as u64).cast_signed()
}

/// The quotient, rounded towards 0, or the nearest number of 64 bits; 0 where the divisor is 0.
pub fn quotient(a: i64, b: i64) -> i64 {
    if b == 0 {
        return 0;
    }
    nearest(((a as i128) << BITS).wrapping_div(b as i128))
}

/// The square, with 72 bits after the point.
pub fn square(a: i64) -> i128 {
    (a as i128).wrapping_mul(a as i128)
}

/// The square of half the bits, with 36 bits after the point. It wraps.
pub fn coarse_square(a: i64) -> i64 {
    let coarse = a >> (BITS / 2);
    coarse.wrapping_mul(coarse)
}

/// A square over a number, with 36 bits after the point; 0 where the number isn't above 0.
pub fn share_of_square(square: i128, number: i64) -> i128 {
    if number <= 0 {
        return 0;
    }
    square.wrapping_div(number as i128)
}

/// One over a number, with 40 bits after the point; 0 where the number is 0.
pub fn inverse(a: i64) -> i128 {
    if a == 0 {
        return 0;
    }
    (1i128 << (BITS + INVERSE_BITS)).wrapping_div(a as i128)
}

/// A number times an inverse, rounded to the nearest, or the nearest number of 64 bits.
pub fn times_inverse(a: i64, inverse: i128) -> i64 {
    let scaled = (a as i128).wrapping_mul(inverse).wrapping_add(HALF_INVERSE);
    nearest(scaled >> INVERSE_BITS)
}

/// A number times another, with 72 bits after the point.
pub fn long_product(a: i64, b: i64) -> i128 {
    (a as i128).wrapping_mul(b as i128)
}

/// A whole number, or the nearest number of 64 bits.
pub fn whole(number: i64) -> i64 {
    nearest((number as i128) << BITS)
}

// The nearest number of 64 bits.
fn nearest(number: i128) -> i64 {
    number.clamp(i64::MIN as i128, i64::MAX as i128) as i64
}
