// Numbers of a point as whole numbers of units. They guide the cutters, and no clause speaks of them.
use xn_frac::Frac;

/// The number 1 in units.
pub const ONE: u32 = 1 << 20;

/// A fraction in units, rounded down; what is below 0 is 0, and what is above 1 is 1.
pub fn units(value: Frac) -> u32 {
    let (num, den) = (value.num(), value.den());
    if num <= 0 {
        return 0;
    }
    if num >= den {
        return ONE;
    }
    let one = i128::from(ONE);
    let share = match num.checked_mul(one) {
        Some(product) => product.checked_div(den),
        None => num.checked_div(den / one),
    };
    u32::try_from(share.unwrap_or(0)).unwrap_or(ONE)
}
