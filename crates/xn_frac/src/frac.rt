// Fractions in lowest terms.
ghost use Rattle.std.specs.Prelude.{◌≡◌, ◌≢◌, ◌^◌, OnOk, OnSome, IfNone, IfSome, ◌<◌, ◌↔◌, ℤ, pos, neg_ℤ, ◌<ℤ◌, IsTrue, IfOk, IfErr, unsigned_abs};
ghost use Rattle.xn_frac.specs.Ratio.{whole, ratio_of, plus, minus_of, minus, times, over, IsLess, IsFrac, IsFracOf, SumFits, CanAdd, CanSub, CanMul, CanDiv, IsRefused, inverse_of, sum_num, sum_den};
ghost use Rattle.xn_frac.specs.Small.{IsShort};

use crate::{short, whole};
use std::marker::Model;

/// A fraction in lowest terms, with a denominator above 0 and both numbers between -2^127 and 2^127.
#[derive(Clone, Copy, PartialEq, Eq, Debug)]
pub struct Frac {
    num: i128,
    den: u128,
}

impl Model for Frac {
    ghost use Rattle.xn_frac.specs.Ratio.{Ratio, IsFrac};

    ghost Value = { Ratio };

    ghost view = { λ f. record { num = f.num; den = f.den } };

    ghost invariant = { λ f. IsFrac (record { num = f.num; den = f.den }) };

    ghost inverse = { λ p. record { num = p.num; den = p.den } };
}

/// An operation whose exact result does not fit, with its two operands.
#[derive(Clone, Copy, PartialEq, Eq, Debug)]
pub struct Wide {
    /// The left operand.
    pub a: Frac,
    /// The right operand.
    pub b: Frac,
    ghost refused: { IsRefused a b },
}

impl Frac {
    /// The fraction num / den in lowest terms.
    pub fn new(num: i128, den: i128) -> Frac
        requires num { neg_ℤ (pos (2 ^ 127)) <ℤ num }
        requires den { pos 0 <ℤ den }
        ensures { IsFracOf (ratio_of num den) result }
    {
        lowest(num, den.unsigned_abs())
    }

    /// A whole number.
    pub fn whole(num: i128) -> Frac
        requires { neg_ℤ (pos (2 ^ 127)) <ℤ num }
        ensures { result ≡ whole num }
    {
        Frac { num, den: 1 }
    }

    /// The numerator.
    pub fn num(self) -> i128
        ensures num { result ≡ self.num }
        ensures lowest { IsFrac self }
    {
        self.num
    }

    /// The denominator.
    pub fn den(self) -> i128
        ensures den { result ≡ pos self.den }
        ensures lowest { IsFrac self }
    {
        self.den as i128
    }

    /// The sum, exactly. Wide where a number met on the way is out of range: the two terms over the common part of the
    /// denominators, their sum, or the common denominator.
    pub fn add(self, other: Frac) -> Result<Frac, Wide>
        ensures ok { IfOk result (IsFracOf (plus self other)) }
        ensures fits { OnOk result (CanAdd self other) }
        ensures err { IfErr result (λ w. (¬ CanAdd self other) × (w.a ≡ self) × (w.b ≡ other)) }
    {
        if self.is_short() && other.is_short() {
            return Ok(short_sum(self, other));
        }
        let common = whole::gcd(self.den, other.den);
        match sum_over(self, other, common) {
            Some((num, den)) => Ok(lowest(num, den)),
            None => Err(Wide { a: self, b: other }),
        }
    }

    /// The difference, exactly. Wide where the sum with the other sign is.
    pub fn sub(self, other: Frac) -> Result<Frac, Wide>
        ensures ok { IfOk result (IsFracOf (minus self other)) }
        ensures fits { OnOk result (CanSub self other) }
        ensures err { IfErr result (λ w. (¬ CanSub self other) × (w.a ≡ self) × (w.b ≡ other)) }
    {
        match self.add(other.negated()) {
            Ok(difference) => Ok(difference),
            Err(_) => Err(Wide { a: self, b: other }),
        }
    }

    /// The product, exactly. Wide where its lowest terms are out of range.
    pub fn mul(self, other: Frac) -> Result<Frac, Wide>
        ensures ok { IfOk result (IsFracOf (times self other)) }
        ensures err { IfErr result (λ w. (¬ CanMul self other) × (w.a ≡ self) × (w.b ≡ other)) }
    {
        match product_of(self, other) {
            Some(product) => Ok(product),
            None => Err(Wide { a: self, b: other }),
        }
    }

    /// The quotient, exactly. Wide where its lowest terms are out of range.
    pub fn div(self, other: Frac) -> Result<Frac, Wide>
        requires { other.num ≢ pos 0 }
        ensures ok { IfOk result (IsFracOf (over self other)) }
        ensures err { IfErr result (λ w. (¬ CanDiv self other) × (w.a ≡ self) × (w.b ≡ other)) }
    {
        match product_of(self, other.inverse()) {
            Some(quotient) => Ok(quotient),
            None => Err(Wide { a: self, b: other }),
        }
    }

    /// Whether this number is the smaller one.
    pub fn less(self, other: Frac) -> bool
        ensures { IsTrue result ↔ IsLess self other }
    {
        if self.num < 0 {
            other.num >= 0
                || whole::is_below(
                    other.num.unsigned_abs(),
                    other.den,
                    self.num.unsigned_abs(),
                    self.den,
                )
        } else {
            other.num > 0
                && whole::is_below(self.num as u128, self.den, other.num as u128, other.den)
        }
    }

    // Whether both numbers are below 2^31.
    fn is_short(self) -> bool
        ensures { IsTrue result → IsShort self }
    {
        self.num.unsigned_abs() < 1 << 31 && self.den < 1 << 31
    }

    // The number with the other sign.
    fn negated(self) -> Frac
        ensures { result ≡ minus_of self }
    {
        Frac {
            num: -self.num,
            den: self.den,
        }
    }

    // One over the number.
    fn inverse(self) -> Frac
        requires { self.num ≢ pos 0 }
        ensures { result ≡ inverse_of self }
    {
        Frac {
            num: whole::with_sign(self.num < 0, self.den),
            den: self.num.unsigned_abs(),
        }
    }
}

// The sum of two numbers below 2^31, for which 64 bits are enough.
fn short_sum(left: Frac, right: Frac) -> Frac
    requires left { IsShort left }
    requires right { IsShort right }
    ensures fits { CanAdd left right }
    ensures value { IsFracOf (plus left right) result }
{
    let (num, den) = short::sum(
        left.num as i64,
        left.den as u64,
        right.num as i64,
        right.den as u64,
    );
    Frac {
        num: i128::from(num),
        den: u128::from(den),
    }
}

// Their product.
fn short_product(left: Frac, right: Frac) -> Frac
    requires left { IsShort left }
    requires right { IsShort right }
    ensures { IsFracOf (times left right) result }
{
    let (num, den) = short::product(
        left.num as i64,
        left.den as u64,
        right.num as i64,
        right.den as u64,
    );
    Frac {
        num: i128::from(num),
        den: u128::from(den),
    }
}

// The sum's numerator and denominator over the common part of the denominators, before they are brought to lowest terms.
fn sum_over(left: Frac, right: Frac, common: u128) -> Option<(i128, u128)>
    requires { 0 < common }
    ensures none { IfNone result (¬ SumFits left right common) }
    ensures some { OnSome result (SumFits left right common) }
    ensures value { IfSome result (λ sum. (sum.0 ≡ sum_num left right common) × (sum.1 ≡ sum_den left right common)) }
{
    let left_part = whole::quotient(left.den, common);
    let first = whole::scaled(left.num, whole::quotient(right.den, common))?;
    let second = whole::scaled(right.num, left_part)?;
    let num = whole::sum(first, second)?;
    let den = whole::product(left_part, right.den)?;
    Some((num, den))
}

// The product, where it fits. Each numerator meets the other's denominator before the parts are multiplied.
fn product_of(left: Frac, right: Frac) -> Option<Frac>
    ensures none { IfNone result (¬ CanMul left right) }
    ensures some { IfSome result (IsFracOf (times left right)) }
{
    if left.is_short() && right.is_short() {
        return Some(short_product(left, right));
    }
    let (left_size, right_size) = (left.num.unsigned_abs(), right.num.unsigned_abs());
    let first = whole::gcd(left_size, right.den);
    let second = whole::gcd(right_size, left.den);
    let size = whole::product(
        whole::quotient(left_size, first),
        whole::quotient(right_size, second),
    )?;
    let den = whole::product(
        whole::quotient(left.den, second),
        whole::quotient(right.den, first),
    )?;
    let negative = (left.num < 0) != (right.num < 0);
    Some(Frac {
        num: whole::with_sign(negative, size),
        den,
    })
}

// num / den without the common divisor.
fn lowest(num: i128, den: u128) -> Frac
    requires num { unsigned_abs num < 2 ^ 127 }
    requires den { 0 < den }
    requires den_in_range { den < 2 ^ 127 }
    ensures { IsFracOf (ratio_of num (pos den)) result }
{
    let size = num.unsigned_abs();
    let common = whole::gcd(size, den);
    Frac {
        num: whole::with_sign(num < 0, whole::quotient(size, common)),
        den: whole::quotient(den, common),
    }
}
