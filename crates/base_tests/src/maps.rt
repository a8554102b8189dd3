// Examples with values from outside, and the limits of every number.

use std::test::Fail;
use whole_affine::{Affine, AffineErr, NearestWalk, RowWalk, nearest};

const TWO_31: i64 = 2147483648;

const TWO_45: i64 = 35184372088832;

#[test]
fn just_below_a_half_is_still_the_first_voxel(rt: HostRuntime) {
    for (point, voxel) in [(-1, 0), (-2, -1)] {
        assert_eq!(rt; nearest(point, 2, 1), voxel);
    }
}

#[test]
fn a_factor_divides_the_finest_voxel(rt: HostRuntime) {
    for (factor, voxel) in [(2, 1), (1, 3)] {
        assert_eq!(rt; nearest(3, 1, factor), voxel);
    }
}

#[test]
fn the_nearest_voxel_at_the_limits(rt: HostRuntime) {
    for (point, denominator, factor, voxel) in [
        (TWO_45, 1, 1, TWO_45),
        (-TWO_45, 1, 1, -TWO_45),
        (TWO_45, 2147483648, 1, 16384),
        (-TWO_45, 2147483648, 1, -16384),
        (TWO_45, 2147483648, u32::MAX, 0),
        (-TWO_45, 2147483648, u32::MAX, -1),
        (-TWO_45, 1, 3, -11728124029611),
    ] {
        let found = nearest(point, denominator, factor);
        assert_eq!(rt; found, voxel, "{point} {denominator} {factor}");
    }
}

#[test]
fn maps_are_refused_by_their_first_broken_rule(rt: HostRuntime) {
    let unit = [[1, 0, 0], [0, 1, 0], [0, 0, 0]];
    let widest = [[TWO_31, -TWO_31, 0], [0, 0, TWO_31], [0, 0, -TWO_31]];
    let large = Some(AffineErr::TooLarge);
    for (denominator, rows, want) in [
        (1, unit, None),
        (2147483648, widest, None),
        (
            0,
            [[i64::MIN, 0, 0], [0, 0, 0], [0, 0, 0]],
            Some(AffineErr::ZeroDenominator),
        ),
        (2147483649, unit, large),
        (1, [[0, 0, 0], [0, TWO_31 + 1, 0], [0, 0, 0]], large),
        (1, [[0, 0, 0], [0, 0, 0], [0, 0, -TWO_31 - 1]], large),
        (1, [[0, 0, 0], [i64::MIN, 0, 0], [0, 0, 0]], large),
    ] {
        let found = Affine::new(denominator, rows).err();
        assert_eq!(rt; found, want, "{denominator} {rows:?}");
    }
}

#[test]
fn a_row_is_walked_to_the_last_pixel(rt: HostRuntime) -> Result<(), Fail> {
    let map = Affine::new(
        3,
        [
            [TWO_31, TWO_31, TWO_31],
            [-TWO_31, -TWO_31, -TWO_31],
            [1, 0, -5],
        ],
    )?;
    assert_eq!(rt; map.q(), 3);
    assert_eq!(rt; map.step(0), [TWO_31, TWO_31]);
    assert_eq!(rt; map.step(2), [1, 0]);
    assert_eq!(rt; map.columns(), [TWO_31, -TWO_31, 1]);
    assert_eq!(rt; map.at(4095, 4095), [17590038560768, -17590038560768, 4090]);
    let mut walk = RowWalk::new(&map, 4095, 4096);
    for x in 0..4096 {
        assert_eq!(rt; walk.next(), Some(map.at(x, 4095)), "column {x}");
    }
    assert_eq!(rt; walk.next(), None);
    Ok(())
}

#[test]
fn the_nearest_voxels_of_a_turned_row(rt: HostRuntime) -> Result<(), Fail> {
    let map = Affine::new(5, [[3, -4, -900], [4, 3, -12285], [-7, 1, TWO_31]])?;
    let factor = [1, 2, 3];
    let mut walk = NearestWalk::new(&map, factor, 4095, 4096);
    for x in 0..4096 {
        let [a, b, c] = map.at(x, 4095);
        assert_eq!(rt;
            walk.voxel(),
            [nearest(a, 5, 1), nearest(b, 5, 2), nearest(c, 5, 3)],
            "column {x}"
        );
        walk = walk.next();
    }
    Ok(())
}

#[test]
fn a_straight_row_stays_in_a_box_for_so_many_columns(rt: HostRuntime) -> Result<(), Fail> {
    let map = Affine::new(1, [[2, 0, 1], [0, 1, 0], [0, 0, 3]])?;
    let walk = NearestWalk::new(&map, [1, 1, 1], 2, 10);
    for (low, sides, columns) in [
        ([0, 0, 0], [8, 4, 4], 4),
        ([0, 3, 0], [8, 4, 4], 0),
        ([0, 0, 0], [100, 4, 4], 10),
    ] {
        assert_eq!(rt; walk.columns_in(low, sides), columns);
    }
    let ahead = walk.ahead(3);
    assert_eq!(rt; ahead.voxel(), [7, 2, 3]);
    assert_eq!(rt; ahead.columns_in([0, 0, 0], [8, 4, 4]), 1);
    Ok(())
}

#[test]
fn a_row_with_remainders_stays_in_a_box_for_so_many_columns(rt: HostRuntime) -> Result<(), Fail> {
    let map = Affine::new(3, [[2, 0, 0], [-1, 0, 6], [0, 0, 0]])?;
    let walk = NearestWalk::new(&map, [1, 1, 1], 0, 10);
    assert_eq!(rt; walk.columns_in([0, 0, 0], [3, 3, 1]), 4);
    assert_eq!(rt; walk.columns_in([0, 2, 0], [9, 1, 1]), 2);
    assert_eq!(rt; walk.ahead(4).voxel(), [3, 1, 0]);
    Ok(())
}

#[test]
fn a_walk_at_the_limits(rt: HostRuntime) -> Result<(), Fail> {
    let map = Affine::new(
        2147483648,
        [
            [TWO_31, TWO_31, TWO_31],
            [-TWO_31, -TWO_31, -TWO_31],
            [1, -1, -TWO_31],
        ],
    )?;
    let walk = NearestWalk::new(&map, [1, u32::MAX, u32::MAX], 4095, 1);
    assert_eq!(rt; walk.voxel(), [4096, -1, -1]);
    assert_eq!(rt; walk.next().voxel(), [4097, -1, -1]);
    Ok(())
}
