// Programs of which the least cost is known, which no clause states.
use super::*;
use std::alloc::{AllocError, Global};
use std::test::Fail;

// So many columns of cost one, and for each row its columns as bits and what they have to reach.
fn table_of(alloc: Global, columns: u32, rows: &[(u64, i64)]) -> Result<Table, AllocError> {
    let mut table = Table::new(alloc);
    for _ in 0..columns {
        table.add_column(ONE)?;
    }
    for (bits, least) in rows {
        let mut terms = Vec::new(alloc);
        for column in 0..columns {
            if bits.wrapping_shr(column) % 2 == 1 {
                terms.push((column, 1))?;
            }
        }
        table.add_row(terms.as_slice(), *least)?;
    }
    Ok(table)
}

// How the program ends, its value, and the sum of the multipliers of point and ray, both in halves.
fn solved(
    alloc: Global,
    columns: u32,
    rows: &[(u64, i64)],
    limit: i64,
) -> Result<(Outcome, i64, i64), AllocError> {
    let mut table = table_of(alloc, columns, rows)?;
    let outcome = table.solve(limit);
    let mut sum: i64 = 0;
    for row in 0..table.rows() {
        sum = sum
            .wrapping_add(table.price(row))
            .wrapping_add(table.ray(row));
    }
    Ok((outcome, halves(table.value()), halves(sum)))
}

// The nearest number of halves.
fn halves(number: i64) -> i64 {
    number.wrapping_add(ONE / 4) / (ONE / 2)
}

#[test]
fn programs_have_their_least_costs(rt: HostRuntime) -> Result<(), Fail> {
    // Five columns in a ring, each two neighbours at least one: 5/2.
    let ring = [
        (0b00011, 1),
        (0b00110, 1),
        (0b01100, 1),
        (0b11000, 1),
        (0b10001, 1),
    ];
    // A column for each edge of K6, a row for each node: 3.
    let cover = [
        (0x1f, 1),
        (0x1e1, 1),
        (0xe22, 1),
        (0x3244, 1),
        (0x5488, 1),
        (0x6910, 1),
    ];
    let far = ONE * 100;
    assert_eq!(rt;
        solved(rt.alloc(), 2, &[(3, 1)], far)?,
        (Outcome::Best, 2, 2)
    );
    assert_eq!(rt; solved(rt.alloc(), 5, &ring, far)?, (Outcome::Best, 5, 5));
    assert_eq!(rt; solved(rt.alloc(), 15, &cover, far)?, (Outcome::Best, 6, 6));
    assert_eq!(rt; solved(rt.alloc(), 2, &[(3, 1)], 0)?.0, Outcome::Passed);
    assert_eq!(rt; solved(rt.alloc(), 2, &[(3, 3)], far)?.0, Outcome::Nothing);
    Ok(())
}

#[test]
fn rows_come_after_pivots(rt: HostRuntime) -> Result<(), Fail> {
    let mut table = table_of(rt.alloc(), 3, &[(0b011, 1)])?;
    assert_eq!(rt; table.solve(ONE * 100), Outcome::Best);
    table.add_column(ONE)?;
    table.add_row(&[(0, -1), (1, -1), (3, 3)], 1)?;
    assert_eq!(rt; table.solve(ONE * 100), Outcome::Best);
    assert_eq!(rt; halves(table.value().wrapping_mul(3)), 10);
    assert!(rt; table.binds(0) && table.binds(1) && table.pivots() > 1);
    Ok(())
}
