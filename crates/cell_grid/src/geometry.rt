// A pyramid of levels, and the numbers of its cells and voxels.
ghost use Rattle.std.specs.Prelude.{◌≡◌, ◌↔◌, ℕ, ◌+◌, ◌≤◌, ◌<◌, ◌^◌, length, take, IfOk, IsSome, IfSome, Some, slice_get, slice_index, [], ◌∷◌};
ghost use Rattle.std.specs.Result.{result_err};
ghost use Rattle.voxel_box.specs.Box.{volume, IsWithin, AreWithin};
ghost use Rattle.cell_grid.specs.Grid.{IsGrid, counts};
ghost use Rattle.cell_grid.specs.GridErr.{broken_level};
ghost use Rattle.cell_grid.specs.Pyramid.{cells_of, first_cell, IsVoxelOf, IsPyramid, grid_of, sides_of, full_of, voxels_of, kind_of, frame_of};

use crate::find::find;
use crate::kept::{cells_of, firsts, frame_of};
use crate::order::product;
use crate::rules::broken_level;
use crate::{GridErr, Kind, Level, Place};
use std::alloc::AllocError;
use std::marker::Model;

/// Want of memory.
pub type Memory = AllocError;

/// The levels of a pyramid, and the numbers of their cells and voxels.
#[derive(Drop)]
pub struct Geometry {
    levels: Vec<Level>,
    // the number of each level's first cell, that of all cells, and the most voxels that one has
    firsts: [u32; 8],
    cells: u32,
    frame: u32,
}

impl Model for Geometry {
    ghost use Rattle.std.specs.Prelude.{List};
    ghost use Rattle.cell_grid.specs.declared.level.Level.{Level};
    ghost use Rattle.cell_grid.specs.Pyramid.{IsKept};

    ghost Value = { List Level };

    ghost view = { λ g. g.levels.items };

    ghost invariant = { λ g. IsKept g.levels.items g.firsts g.cells g.frame };
}

impl Geometry {
    /// A pyramid of these levels, level 0 first. The refusal is the first broken rule: there are 1 to 8 levels, no
    /// factor is zero, and all levels together have at most 2^18 cells. The list is kept, and no memory is taken.
    pub fn new(levels: Vec<Level>) -> Result<Geometry, GridErr>
        ensures made { IfOk result (λ geometry. geometry ≡ levels.items) }
        ensures refused { result_err result ≡ broken_level levels.items }
    {
        match broken_level(levels.as_slice()) {
            Some(refusal) => Err(refusal),
            None => Ok(Geometry {
                firsts: firsts(levels.as_slice()),
                cells: cells_of(levels.as_slice()),
                frame: frame_of(levels.as_slice()),
                levels,
            }),
        }
    }

    /// An equal geometry.
    pub fn copy(&self) -> Result<Geometry, Memory>
        ensures { IfOk result (λ geometry. geometry ≡ self.now) }
    {
        Ok(Geometry {
            levels: self.levels.clone()?,
            firsts: self.firsts,
            cells: self.cells,
            frame: self.frame,
        })
    }

    /// How many levels there are.
    pub fn levels(&self) -> u8
        ensures count { result ≡ length self.now }
        ensures pyramid { IsPyramid self.now }
    {
        self.levels.len() as u8
    }

    /// A level. Level 0 is the finest.
    pub fn level(&self, l: u8) -> &Level
        requires { l < length self.now }
        ensures level { slice_get self.now l ≡ Some result.now }
        ensures pyramid { IsPyramid self.now }
    {
        &self.levels[l as usize]
    }

    /// How many cells all levels have.
    pub fn cells(&self) -> u32
        ensures count { result ≡ cells_of self.now }
        ensures pyramid { IsPyramid self.now }
    {
        self.cells
    }

    /// The greatest `voxels` over all cells.
    pub fn frame(&self) -> u32
        ensures frame { result ≡ frame_of self.now }
        ensures enough { (cell : ℕ) → cell < cells_of self.now → voxels_of self.now cell ≤ result }
        ensures small { result ≤ 2 ^ 21 }
    {
        self.frame
    }
}

impl Geometry {
    /// The cell of a voxel, and its offset there. None exactly where the level doesn't exist or a coordinate is not
    /// below its side. Three divisions in 32 bits.
    pub fn place(&self, level: u8, pos: [u64; 3]) -> Option<Place>
        ensures exists { IsSome result ↔ ((shape : Level) × (slice_get self.now level ≡ Some shape) × IsWithin pos shape.extent.dims) }
        ensures voxel { IfSome result (λ place. IsVoxelOf self.now level pos place.cell place.at) }
        ensures cell { IfSome result (λ place. place.cell < cells_of self.now) }
        ensures at { IfSome result (λ place. place.at < voxels_of self.now place.cell) }
    {
        let shape = self.levels.get(level as usize)?;
        let place = shape.extent.locate(pos)?;
        Some(Place {
            cell: self.firsts[level as usize] + place.cell,
            at: place.at,
        })
    }

    /// The voxel at an offset of a cell: its level, and its coordinates there.
    pub fn pos_of(&self, place: Place) -> (u8, [u64; 3])
        requires cell { place.cell < cells_of self.now }
        requires at { place.at < voxels_of self.now place.cell }
        ensures { IsVoxelOf self.now result.0 result.1 place.cell place.at }
    {
        let found = find(self.levels.as_slice(), place.cell);
        let pos = found.shape.extent.voxel(Place {
            cell: found.number,
            at: place.at,
        });
        (found.level, pos)
    }

    /// The sides of a cell, cut to the volume.
    pub fn sides(&self, cell: u32) -> [u32; 3]
        requires { cell < cells_of self.now }
        ensures sides { result ≡ sides_of self.now cell }
        ensures some { AreWithin (1 ∷ 1 ∷ 1 ∷ []) result }
        ensures within { AreWithin result (full_of self.now cell) }
        ensures small { volume result ≤ 2 ^ 21 }
    {
        let found = find(self.levels.as_slice(), cell);
        found.shape.extent.sides_of(found.number)
    }

    /// The sides of a full cell of the cell's level.
    pub fn full(&self, cell: u32) -> [u32; 3]
        requires { cell < cells_of self.now }
        ensures full { result ≡ full_of self.now cell }
        ensures small { volume result ≤ 2 ^ 21 }
    {
        find(self.levels.as_slice(), cell).shape.extent.cell()
    }

    /// The level of a cell, and where the cell lies in that level's grid.
    pub fn grid_of(&self, cell: u32) -> (u8, [u32; 3])
        requires { cell < cells_of self.now }
        ensures { result ≡ grid_of self.now cell }
    {
        let found = find(self.levels.as_slice(), cell);
        (found.level, found.shape.extent.grid_of(found.number))
    }

    /// How many voxels a cell has: the product of its sides.
    pub fn voxels(&self, cell: u32) -> u32
        requires { cell < cells_of self.now }
        ensures voxels { result ≡ voxels_of self.now cell }
        ensures some { 1 ≤ result }
        ensures small { result ≤ 2 ^ 21 }
    {
        product(self.sides(cell))
    }

    /// The kind of a cell's voxels.
    pub fn kind(&self, cell: u32) -> Kind
        requires { cell < cells_of self.now }
        ensures { result ≡ kind_of self.now cell }
    {
        find(self.levels.as_slice(), cell).shape.kind
    }
}
