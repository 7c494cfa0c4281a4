// Stated rows, and numbers beside Rust's own arithmetic.
use super::*;
use std::test::Fail;

const MAX: i128 = i128::MAX;

#[test]
fn two_fractions_over_the_greatest_numbers_are_too_wide(rt: HostRuntime) -> Result<(), Fail> {
    let (a, b) = (Frac::new(1, MAX), Frac::new(1, MAX - 1));
    let Err(wide) = a.add(b) else {
        return Err(Fail::from("a sum"));
    };
    assert_eq!(rt; (wide.a, wide.b), (a, b));
    assert!(rt; a.less(b));
    assert!(rt; !b.less(a));
    Ok(())
}

#[test]
fn small_fractions(rt: HostRuntime) -> Result<(), Fail> {
    let (half, third) = (Frac::new(2, 4), Frac::new(-3, 9));
    assert!(rt; third.num() != 0);
    let results = [
        half.add(third)?,
        half.sub(third)?,
        half.mul(third)?,
        half.div(third)?,
    ];
    for (found, want) in results.iter().zip([(1, 6), (5, 6), (-1, 6), (-3, 2)]) {
        assert_eq!(rt; (found.num(), found.den()), want);
    }
    assert!(rt; third.less(half));
    Ok(())
}
