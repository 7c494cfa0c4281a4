// Whole numbers with the range of a fraction's: what leaves the range is refused as the fractions refuse it.
ghost use Rattle.std.specs.Prelude.{◌≡◌, ◌^◌, ℤ, pos, neg_ℤ, ◌+ℤ◌, ◌*ℤ◌, ◌<ℤ◌, IfOk};
ghost use Rattle.std.specs.Option.{SomeIff};
ghost use Rattle.xn_frac.specs.Ratio.{whole, IsInRange};

use std::marker::Model;
use xn_frac::{Frac, Wide, whole};

/// A whole number between -2^127 and 2^127.
#[derive(Clone, Copy, Debug, PartialEq, Eq)]
pub struct Whole {
    value: i128,
}

impl Model for Whole {
    ghost use Rattle.std.specs.Prelude.{ℤ};
    ghost use Rattle.xn_frac.specs.Ratio.{IsInRange};

    ghost Value = { ℤ };

    ghost view = { λ n. n.value };

    ghost invariant = { λ n. IsInRange n.value };

    ghost inverse = { λ z. record { value = z } };
}

impl Whole {
    /// The number of an i64.
    pub fn new(value: i64) -> Whole
        ensures { result ≡ value }
    {
        Whole {
            value: i128::from(value),
        }
    }

    /// The number, which is in range.
    pub fn from_num(value: i128) -> Whole
        requires { neg_ℤ (pos (2 ^ 127)) <ℤ value }
        ensures { result ≡ value }
    {
        Whole { value }
    }

    /// The number.
    pub fn value(self) -> i128
        ensures value { result ≡ self }
        ensures low { neg_ℤ (pos (2 ^ 127)) <ℤ result }
    {
        self.value
    }

    /// The number as a fraction.
    pub fn to_frac(self) -> Frac
        ensures { result ≡ whole self }
    {
        Frac::whole(self.value)
    }

    /// The number with the other sign.
    pub fn negated(self) -> Whole
        ensures { result ≡ neg_ℤ self }
    {
        Whole { value: -self.value }
    }

    /// The sum.
    pub fn plus(self, other: Whole) -> Result<Whole, Wide>
        ensures { IfOk result (λ n. n ≡ self +ℤ other) }
    {
        match whole::sum(self.value, other.value) {
            Some(value) => Ok(Whole { value }),
            None => Err(Wide {
                a: self.to_frac(),
                b: other.to_frac(),
            }),
        }
    }

    /// The product.
    pub fn times(self, other: Whole) -> Result<Whole, Wide>
        ensures { IfOk result (λ n. n ≡ self *ℤ other) }
    {
        match product(self.value, other.value) {
            Some(value) => Ok(Whole { value }),
            None => Err(Wide {
                a: self.to_frac(),
                b: other.to_frac(),
            }),
        }
    }
}

// The product, if it is in range. Nothing that is 0 is multiplied.
fn product(m: i128, n: i128) -> Option<i128>
    requires { IsInRange m }
    ensures { SomeIff result (IsInRange (m *ℤ n)) (m *ℤ n) }
{
    if m == 0 || n == 0 {
        return Some(0);
    }
    whole::scaled(if n < 0 { -m } else { m }, n.unsigned_abs())
}
