// Rows and tables that no clause states.
use super::*;
use std::alloc::{AllocError, Global};
use std::test::Fail;

type Terms<'a> = &'a [(u32, i64)];

// The program of these costs and rows.
fn program(alloc: Global, cost: &[i64], rows: &[(Terms, i64)]) -> Result<Lp, AllocError> {
    let mut list = Vec::new(alloc);
    for (terms, least) in rows {
        list.push(LpRow {
            terms: Items::new(Vec::from_slice(alloc, terms)?),
            least: *least,
        })?;
    }
    Ok(Lp {
        cost: Items::new(Vec::from_slice(alloc, cost)?),
        rows: Items::new(list),
    })
}

// The cost of the point.
fn cost_of(cost: &[i64], point: &[Frac]) -> Result<Frac, Wide> {
    let mut total = Frac::whole(0);
    for (c, x) in cost.iter().zip(point) {
        total = total.add(Frac::whole(i128::from(*c)).mul(*x)?)?;
    }
    Ok(total)
}

#[test]
fn one_of_two_columns_costs_one_with_dual_one(rt: HostRuntime) -> Result<(), Fail> {
    let lp = program(rt.alloc(), &[1, 1], &[(&[(0, 1), (1, 1)], 1)])?;
    assert!(rt; lp.names_columns());
    let LpAnswer::Best { point, duals } = solve_lp(rt.alloc(), &lp)? else {
        return Err(Fail::from("no point"));
    };
    let cost = cost_of(&[1, 1], point.as_slice())?;
    assert_eq!(rt; cost, Frac::whole(1));
    assert_eq!(rt; duals.as_slice(), [Frac::whole(1)].as_slice());
    Ok(())
}

#[test]
fn a_column_above_its_box_is_nothing(rt: HostRuntime) -> Result<(), Fail> {
    let lp = program(rt.alloc(), &[0], &[(&[(0, 1)], 2)])?;
    assert!(rt; lp.names_columns());
    assert!(rt; matches!(solve_lp(rt.alloc(), &lp)?, LpAnswer::Nothing { .. }));
    Ok(())
}

#[test]
fn two_hundred_and_one_rows_are_too_large(rt: HostRuntime) -> Result<(), Fail> {
    for (rows, want) in [
        (200, None),
        (
            201,
            Some(LpErr::TooLarge {
                rows: 201,
                columns: 1,
            }),
        ),
    ] {
        let row: (Terms, i64) = (&[], 0);
        let lp = program(rt.alloc(), &[1], vec![in rt.alloc(); row; rows]?.as_slice())?;
        assert!(rt; lp.names_columns());
        assert_eq!(rt; solve_lp(rt.alloc(), &lp).err(), want);
    }
    Ok(())
}

// A hundred rows of five terms in 300 columns, each met exactly by the point of every third column.
fn hundred_rows(alloc: Global) -> Result<Lp, AllocError> {
    let mut state: u64 = 1;
    let mut rows = Vec::new(alloc);
    for _ in 0..100u32 {
        let mut terms = Vec::new(alloc);
        let mut least: i64 = 0;
        for k in 0..5u32 {
            state = state
                .wrapping_mul(6_364_136_223_846_793_005)
                .wrapping_add(1_442_695_040_888_963_407);
            let column = (state >> 33) % 60 * 5 + u64::from(k);
            let coefficient = ((state >> 50) % 9) as i64 + 1;
            terms.push((column as u32, coefficient))?;
            if column % 3 == 0 {
                least = least.wrapping_add(coefficient);
            }
        }
        rows.push(LpRow {
            terms: Items::new(terms),
            least,
        })?;
    }
    let mut cost = Vec::new(alloc);
    for j in 0..300i64 {
        cost.push(j % 7 + 1)?;
    }
    Ok(Lp {
        cost: Items::new(cost),
        rows: Items::new(rows),
    })
}

#[test]
fn a_hundred_rows_are_solved(rt: HostRuntime) -> Result<(), Fail> {
    let lp = hundred_rows(rt.alloc())?;
    assert!(rt; lp.names_columns());
    assert!(rt; matches!(solve_lp(rt.alloc(), &lp)?, LpAnswer::Best { .. }));
    Ok(())
}

type Row<'a> = (&'a [i64], &'a [(Terms<'a>, i64)], Option<(i128, i128)>);

// Costs, rows, and the least cost or none where there is no point, written by tools/lp_table.py.
const TABLE: [Row; 30] = [
    (&[1, 1], &[(&[(0, 1), (1, 1)], 1)], Some((1, 1))),
    (&[1, 1], &[(&[(0, 1)], 2)], None),
    (
        &[3, 2],
        &[(&[(0, 2), (1, 3)], 4), (&[(0, 5), (1, 1)], 3)],
        Some((7, 2)),
    ),
    (&[-1, -1], &[(&[(0, -1), (1, -1)], -1)], Some((-1, 1))),
    (
        &[1, 1, 1],
        &[
            (&[(0, 1), (1, 1)], 0),
            (&[(1, 1), (2, 1)], 0),
            (&[(0, 1), (2, 1)], 0),
            (&[(0, 1), (1, -1)], 0),
            (&[(1, 1), (2, -1)], 0),
        ],
        Some((0, 1)),
    ),
    (
        &[-1, -1, -1],
        &[
            (&[(0, 1), (1, -1)], 0),
            (&[(1, 1), (2, -1)], 0),
            (&[(2, 1), (0, -1)], 0),
            (&[(0, -1), (1, -1), (2, -1)], -2),
        ],
        Some((-2, 1)),
    ),
    (
        &[-75, 15000, -2, 600],
        &[
            (&[(0, -25), (1, 6000), (2, 4), (3, -900)], 0),
            (&[(0, -50), (1, 9000), (2, 2), (3, -300)], 0),
            (&[(2, -1)], -1),
        ],
        Some((-5, 1)),
    ),
    (
        &[-2, -3, 1, 12],
        &[
            (&[(0, 2), (1, 9), (2, -1), (3, -9)], 0),
            (&[(0, -1), (1, -3), (2, 1), (3, 6)], 0),
            (&[(0, -2), (1, -3), (2, 1), (3, 12)], -2),
        ],
        Some((-1, 1)),
    ),
    (
        &[0, 0],
        &[(&[(0, 1), (1, 1)], 1), (&[(0, -2), (1, -2)], -1)],
        None,
    ),
    (
        &[1, -1, 2],
        &[
            (&[(0, 7), (1, -3), (2, 2)], 5),
            (&[(0, -7), (1, 3), (2, -2)], -6),
            (&[(1, 11), (2, -13)], 1),
        ],
        Some((1, 3)),
    ),
    (
        &[-1, -6, 1, 9],
        &[(&[(0, 2), (1, -5)], -3), (&[(1, 7), (2, 3)], 2)],
        Some((-7, 1)),
    ),
    (
        &[1, 1],
        &[(&[(0, 5), (1, 3)], 2), (&[(0, 7)], -1)],
        Some((2, 5)),
    ),
    (
        &[-6, -7],
        &[(&[(1, -1)], 0), (&[(0, -7), (1, -1)], -1)],
        Some((-6, 7)),
    ),
    (
        &[-8, -9],
        &[(&[(0, 1), (1, 7)], 3), (&[(1, 5)], 2)],
        Some((-17, 1)),
    ),
    (&[3, -6], &[(&[(1, 1)], -1), (&[(0, 5)], -1)], Some((-6, 1))),
    (
        &[-4, -7, -6],
        &[(&[(0, 2), (1, 3)], 4), (&[(0, 3), (1, 5), (2, 1)], -4)],
        Some((-17, 1)),
    ),
    (&[-7, 1], &[(&[(0, -7), (1, -7)], -1)], Some((-1, 1))),
    (&[-4, -9], &[(&[(1, -3)], 2)], None),
    (&[3, -6, -3], &[(&[(0, -2)], -3)], Some((-9, 1))),
    (
        &[8, 3, -5],
        &[(&[(0, -7), (1, -3), (2, -2)], 0), (&[(0, -2), (1, 1)], 0)],
        Some((0, 1)),
    ),
    (&[-9, -1], &[(&[(1, 1)], 0)], Some((-10, 1))),
    (
        &[-6, -7, 9],
        &[
            (&[(0, 5), (2, -5)], 4),
            (&[(0, -1), (1, -1), (2, 7)], -3),
            (&[(0, -2)], -1),
            (&[(0, -1), (1, 3), (2, -7)], -2),
        ],
        None,
    ),
    (
        &[8, 3, 3, -1],
        &[
            (&[(3, -5)], 3),
            (&[(0, 3), (1, 1), (3, 2)], -1),
            (&[(2, -3)], -3),
            (&[(0, -2), (1, 5), (3, -3)], 0),
        ],
        None,
    ),
    (&[-5, 2, 2, 7], &[(&[(0, 2), (3, 5)], 3)], Some((-18, 5))),
    (
        &[3, 8],
        &[
            (&[(0, 3), (1, -1)], 1),
            (&[(1, -2)], 3),
            (&[(1, 1)], 4),
            (&[(0, -1)], -4),
        ],
        None,
    ),
    (
        &[2, 3, -3, 8],
        &[(&[(0, -3), (2, -3), (3, -1)], -4), (&[(1, 1)], 0)],
        Some((-3, 1)),
    ),
    (
        &[-7, -5],
        &[
            (&[(0, -3), (1, -1)], -3),
            (&[(0, 3), (1, 3)], 2),
            (&[(0, -1)], 4),
        ],
        None,
    ),
    (
        &[-4, 5, 5, 7],
        &[
            (&[(0, -1), (1, -5), (2, -2), (3, 3)], 2),
            (&[(0, -2), (1, -1), (2, -2), (3, 5)], 0),
            (&[(0, -3), (1, 5), (2, 7), (3, 1)], 0),
            (&[(0, 2), (1, -3)], 0),
        ],
        Some((17, 4)),
    ),
    (&[7, -7, -4, 7], &[(&[(0, -1)], 2), (&[(1, 7)], 3)], None),
    (
        &[-8, -4, -4],
        &[
            (&[(1, 7)], 0),
            (&[(0, -1)], -1),
            (&[(0, 5)], 4),
            (&[(0, -2), (1, 5), (2, -3)], 4),
        ],
        None,
    ),
];

#[test]
fn the_table_of_small_programs(rt: HostRuntime) -> Result<(), Fail> {
    for (cost, rows, want) in TABLE {
        let lp = program(rt.alloc(), cost, rows)?;
        assert!(rt; lp.names_columns());
        let found = match solve_lp(rt.alloc(), &lp)? {
            LpAnswer::Best {
                point,
                duals: _duals,
            } => Some(cost_of(cost, point.as_slice())?),
            LpAnswer::Nothing { ray: _ray } => None,
        };
        assert_eq!(rt;
            found.map(|least| (least.num(), least.den())),
            want,
            "at {cost:?}"
        );
    }
    Ok(())
}
