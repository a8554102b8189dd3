// Worked examples of grids and pyramids.

use crate::fixture::level;
use cell_grid::{Extent, Geometry, GridErr, Kind, Place, lane};
use std::alloc::Global;
use std::test::Fail;

/// Five voxels a side in cells of four, at two levels of which the second is half as wide.
fn halved(alloc: Global) -> Result<Geometry, Fail> {
    let fine = level([5, 5, 5], [4, 4, 4], [1, 1, 1])?;
    let coarse = level([3, 3, 3], [4, 4, 4], [2, 2, 2])?;
    Ok(Geometry::new(vec![in alloc; fine, coarse]?)?)
}

#[test]
fn a_box_is_refused_by_its_first_broken_rule(rt: HostRuntime) {
    let first = GridErr::ZeroSide { axis: 0 };
    let last = GridErr::ZeroSide { axis: 2 };
    let side = GridErr::SideTooLarge {
        axis: 1,
        found: 2147483648,
    };
    let cell = GridErr::CellTooLarge { voxels: 4194304 };
    let count = GridErr::TooManyCells { count: 2097152 };
    for (dims, sides, want) in [
        ([0, 1, 1], [1, 1, 1], Some(first)),
        ([1 << 40, 1, 1], [1, 1, 0], Some(last)),
        ([1, 2147483648, 1], [256, 256, 64], Some(side)),
        ([1, 1, 1], [256, 256, 64], Some(cell)),
        ([2097152, 1, 1], [1, 1, 1], Some(count)),
        ([1, 1, 1], [128, 128, 128], None),
    ] {
        assert_eq!(rt; Extent::new(dims, sides).err(), want, "{dims:?}");
    }
}

#[test]
fn a_pyramid_is_refused_by_its_first_broken_rule(rt: HostRuntime) -> Result<(), Fail> {
    let alloc = rt.alloc();
    let one = level([1, 1, 1], [1, 1, 1], [1, 1, 1])?;
    let flat = level([1, 1, 1], [1, 1, 1], [1, 0, 1])?;
    let long = level([200000, 1, 1], [1, 1, 1], [1, 1, 1])?;
    let none = Geometry::new(Vec::new(alloc)).err();
    assert_eq!(rt; none, Some(GridErr::NoLevel));
    let many = Geometry::new(vec![in alloc; flat; 9]?).err();
    assert_eq!(rt; many, Some(GridErr::TooManyLevels { count: 9 }));
    let zero = Geometry::new(vec![in alloc; long, flat, long]?).err();
    assert_eq!(rt; zero, Some(GridErr::ZeroFactor { level: 1, axis: 1 }));
    let cells = Geometry::new(vec![in alloc; long, one, long]?).err();
    assert_eq!(rt; cells, Some(GridErr::TooManyCells { count: 400001 }));
    Ok(())
}

#[test]
fn the_last_cell_is_cropped(rt: HostRuntime) -> Result<(), Fail> {
    let geometry = halved(rt.alloc())?;
    assert_eq!(rt; geometry.cells(), 9);
    let corner = Place { cell: 7, at: 0 };
    assert_eq!(rt; geometry.sides(7), [1, 1, 1]);
    assert_eq!(rt; geometry.full(7), [4, 4, 4]);
    assert_eq!(rt; geometry.grid_of(7), (0, [1, 1, 1]));
    assert_eq!(rt; geometry.voxels(7), 1);
    assert_eq!(rt; geometry.pos_of(corner), (0, [4, 4, 4]));
    assert_eq!(rt; geometry.frame(), 64);
    Ok(())
}

#[test]
fn voxels_have_their_places(rt: HostRuntime) -> Result<(), Fail> {
    let geometry = halved(rt.alloc())?.copy()?;
    assert_eq!(rt; geometry.levels(), 2);
    for (level, voxel, want) in [
        (0, [4, 4, 4], Some(Place { cell: 7, at: 0 })),
        (0, [5, 0, 0], None),
        (2, [0, 0, 0], None),
        (1, [1, 2, 0], Some(Place { cell: 8, at: 7 })),
        (0, [1, 4, 3], Some(Place { cell: 2, at: 13 })),
    ] {
        assert_eq!(rt; geometry.place(level, voxel), want, "{level} {voxel:?}");
    }
    Ok(())
}

#[test]
fn the_cells_of_a_level_follow_those_before_it(rt: HostRuntime) -> Result<(), Fail> {
    let geometry = halved(rt.alloc())?.copy()?;
    assert_eq!(rt; geometry.cells(), 9);
    assert_eq!(rt; geometry.voxels(8), 27);
    assert_eq!(rt; geometry.pos_of(Place { cell: 8, at: 7 }), (1, [1, 2, 0]));
    assert_eq!(rt; geometry.kind(8), Kind::U8);
    assert_eq!(rt; geometry.levels(), 2);
    let coarse = geometry.level(1);
    assert_eq!(rt; coarse.extent.dims(), [3, 3, 3]);
    assert_eq!(rt; coarse.extent.cell(), [4, 4, 4]);
    assert_eq!(rt; lane(8, 3), 2);
    Ok(())
}

#[test]
fn kinds_have_their_widths(rt: HostRuntime) {
    for (kind, bytes, greatest) in [
        (Kind::U8, 1, 255),
        (Kind::U16, 2, 65535),
        (Kind::U32, 4, 4294967295),
        (Kind::U64, 8, u64::MAX),
    ] {
        assert_eq!(rt; kind.bytes(), bytes);
        assert_eq!(rt; kind.greatest(), greatest);
    }
}
