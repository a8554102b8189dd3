// Examples with values from outside, and the limits of every number.

use crate::fixture::pyramid;
use scale_pick::{Painted, Picture, Shades, best, shown};
use std::test::Fail;
use whole_affine::Affine;

#[test]
fn a_range_is_shown_from_black_to_white(rt: HostRuntime) {
    let shades = Shades::new(10, 20);
    for (v, byte) in [(0, 0), (10, 0), (11, 25), (19, 229), (20, 255), (21, 255)] {
        assert_eq!(rt; shown(v, 10, 20), byte, "at {v}");
        assert_eq!(rt; shades.shown(v), byte, "at {v}");
    }
}

#[test]
fn the_longest_range_is_shown(rt: HostRuntime) {
    let shades = Shades::new(0, u64::MAX);
    for (v, byte) in [
        (0, 0),
        (72340172838076672, 0),
        (72340172838076673, 1),
        (9223372036854775808, 127),
        (18446744073709551614, 254),
        (u64::MAX, 255),
    ] {
        assert_eq!(rt; shown(v, 0, u64::MAX), byte, "at {v}");
        assert_eq!(rt; shades.shown(v), byte, "at {v}");
    }
}

#[test]
fn ranges_about_the_longest_that_a_multiplication_shows(rt: HostRuntime) {
    let in_one = Shades::new(5, 16777221);
    let in_parts = Shades::new(5, 16777222);
    for (v, byte) in [
        (5, 0),
        (65798, 0),
        (65799, 1),
        (16711427, 253),
        (16711428, 254),
        (16777220, 254),
        (16777221, 255),
    ] {
        assert_eq!(rt; in_one.shown(v), byte, "at {v}");
    }
    for (v, byte) in [
        (5, 0),
        (65798, 0),
        (65799, 1),
        (16711428, 253),
        (16711429, 254),
        (16777221, 254),
        (16777222, 255),
    ] {
        assert_eq!(rt; in_parts.shown(v), byte, "at {v}");
    }
}

#[test]
fn the_best_level_is_the_first_that_no_step_skips(rt: HostRuntime) -> Result<(), Fail> {
    let geometry = pyramid(rt.alloc())?;
    for (step, level) in [(2, 1), (1, 0), (3, 1), (-2, 1), (-1, 0)] {
        let affine = Affine::new(1, [[step, 0, 0], [0, step, 0], [0, 0, 0]])?;
        assert_eq!(rt; best(&geometry, &affine), level, "step {step}");
    }
    let by_rows = Affine::new(1, [[1, 2, 0], [0, 1, 0], [0, 0, 0]])?;
    assert_eq!(rt; best(&geometry, &by_rows), 1);
    let by_halves = Affine::new(2, [[2, 0, 0], [0, 2, 0], [0, 0, 0]])?;
    assert_eq!(rt; best(&geometry, &by_halves), 0);
    Ok(())
}

#[test]
fn a_picture_is_set_pixel_by_pixel(rt: HostRuntime) -> Result<(), Fail> {
    let mut picture = Picture::new(rt.alloc(), 3, 2)?;
    assert_eq!(rt; picture.width(), 3);
    assert_eq!(rt; picture.height(), 2);
    assert_eq!(rt; picture.values(), [0, 0, 0, 0, 0, 0].as_slice());
    assert_eq!(rt; picture.mask(), [255, 255, 255, 255, 255, 255].as_slice());
    picture.set(2, 0, 9, 1);
    picture.set(0, 1, 8, 0);
    picture.set_at(4, 7, 0);
    assert_eq!(rt; picture.values(), [0, 0, 9, 8, 7, 0].as_slice());
    assert_eq!(rt; picture.mask(), [255, 255, 1, 0, 0, 255].as_slice());
    let painted = Painted {
        wanted: 0,
        complete: false,
        not_ready: 4,
    };
    assert_eq!(rt; Painted::of(&picture, 0), painted);
    Ok(())
}

#[test]
fn a_picture_of_one_level_is_complete(rt: HostRuntime) -> Result<(), Fail> {
    let mut picture = Picture::new(rt.alloc(), 1, 2)?;
    picture.set(0, 0, 1, 2);
    picture.set(0, 1, 0, 2);
    let painted = Painted {
        wanted: 2,
        complete: true,
        not_ready: 0,
    };
    assert_eq!(rt; Painted::of(&picture, 2), painted);
    Ok(())
}
