// A box of voxels that is cut into cells.
ghost use Rattle.std.specs.Prelude.{◌≡◌, ◌↔◌, ℕ, ◌+◌, ◌-◌, ◌*◌, ◌^◌, ◌≤◌, ◌<◌, [], ◌∷◌, min, IfOk, IsSome, IfSome, slice_index};
ghost use Rattle.std.specs.Result.{result_err};
ghost use Rattle.std.specs.Int.{div_ceil};
ghost use Rattle.voxel_box.specs.Box.{volume, position_of, IsWithin, AreWithin};
ghost use Rattle.cell_grid.specs.Grid.{Sides, cell_count, counts, IsGrid, sides_at, coordinates, IsVoxel, quotients, remainders};
ghost use Rattle.cell_grid.specs.GridErr.{broken_grid_rule};

use crate::order::{number, position_of, product};
use crate::rules::broken_rule;
use crate::{GridErr, Place};
use std::marker::Model;

/// A box of voxels and the sides of its full cells. At the end of an axis a cell covers what is left of the box.
#[derive(Clone, Copy)]
pub struct Extent {
    dims: [u64; 3],
    cell: [u32; 3],
    // how many cells lie along each axis, so that no call divides for it
    grid: [u32; 3],
}

impl Model for Extent {
    ghost use Rattle.std.proofs.Common.{sym, ap};
    ghost use Rattle.cell_grid.specs.Grid.{Sides, IsMeasured, counts};

    ghost Value = { Sides };

    ghost view = { λ e. record { dims = e.dims; cell = e.cell } };

    ghost invariant = { λ e. IsMeasured (record { dims = e.dims; cell = e.cell }) e.grid };

    ghost inverse = { λ s. record { dims = s.dims; cell = s.cell; grid = counts s } };

    ghost inverse_ok = { λ e h. ap (λ g. record { dims = e.dims; cell = e.cell; grid = g }) (sym h.grid) };
}

impl Extent {
    /// A box of these sides, cut into cells of these. Sides are counted in voxels, x first. The refusal is the first
    /// broken rule: no side of the box and then of the cell is zero, no side of the box is above 2^31 - 1, a full cell
    /// has at most 2^21 voxels, and there are at most 2^18 cells. No memory is taken.
    pub fn new(dims: [u64; 3], cell: [u32; 3]) -> Result<Extent, GridErr>
        ensures made { IfOk result (λ extent. extent ≡ record { dims = dims; cell = cell }) }
        ensures refused { result_err result ≡ broken_grid_rule dims cell }
    {
        match broken_rule(dims, cell) {
            Some(refusal) => Err(refusal),
            None => Ok(Extent {
                dims,
                cell,
                grid: counts(dims, cell),
            }),
        }
    }

    /// The sides of the box.
    pub fn dims(&self) -> [u64; 3]
        ensures { result ≡ self.now.dims }
    {
        self.dims
    }

    /// The sides of a full cell.
    pub fn cell(&self) -> [u32; 3]
        ensures { result ≡ self.now.cell }
    {
        self.cell
    }

    /// How many cells the box has.
    #[tactic(auto, using(crate::proofs::GridLemmas::counts_some, crate::proofs::GridLemmas::counts_small))]
    pub(crate) fn cells(&self) -> u32
        ensures count { result ≡ cell_count self.now.dims self.now.cell }
        ensures limits { IsGrid self.now }
    {
        product(self.counts())
    }

    /// The sides of the grid.
    fn counts(&self) -> [u32; 3]
        ensures counts { result ≡ counts self.now }
        ensures limits { IsGrid self.now }
    {
        self.grid
    }

    /// The sides of the cell at a position of the grid.
    fn sides_at(&self, grid: [u32; 3]) -> [u32; 3]
        requires { IsWithin grid (counts self.now) }
        ensures { result ≡ sides_at self.now grid }
    {
        [
            covered(self.dims[0], self.cell[0], grid[0]),
            covered(self.dims[1], self.cell[1], grid[1]),
            covered(self.dims[2], self.cell[2], grid[2]),
        ]
    }

    /// Where a cell lies in the grid.
    pub(crate) fn grid_of(&self, cell: u32) -> [u32; 3]
        requires { cell < cell_count self.now.dims self.now.cell }
        ensures position { result ≡ position_of cell (counts self.now) }
        ensures within { IsWithin result (counts self.now) }
        ensures limits { IsGrid self.now }
    {
        position_of(cell, self.counts())
    }

    /// The sides of a cell, cut to the box.
    pub(crate) fn sides_of(&self, cell: u32) -> [u32; 3]
        requires { cell < cell_count self.now.dims self.now.cell }
        ensures sides { result ≡ sides_at self.now (position_of cell (counts self.now)) }
        ensures some { AreWithin (1 ∷ 1 ∷ 1 ∷ []) result }
        ensures small { volume result ≤ 2 ^ 21 }
    {
        let grid = self.grid_of(cell);
        self.sides_at(grid)
    }

    /// How many voxels the cell at the grid's beginning has.
    #[tactic(auto, using(crate::proofs::GridLemmas::begins_within, crate::proofs::GridLemmas::sides_some, crate::proofs::GridLemmas::cropped_small))]
    pub(crate) fn first_voxels(&self) -> u32
        ensures voxels { result ≡ volume (sides_at self.now (0 ∷ 0 ∷ 0 ∷ [])) }
        ensures limits { IsGrid self.now }
    {
        let _counts = self.counts(); // read for what its contract tells the proof
        product(self.sides_at([0, 0, 0]))
    }

    /// The cell of a voxel and its offset there.
    #[tactic(auto, using(crate::proofs::GridLemmas::in_grid, crate::proofs::GridLemmas::in_cell, crate::proofs::GridLemmas::cropped_small, crate::proofs::GridLemmas::voxel_of))]
    pub(crate) fn locate(&self, pos: [u64; 3]) -> Option<Place>
        ensures inside { IsSome result ↔ IsWithin pos self.now.dims }
        ensures voxel { IfSome result (λ place. IsVoxel self.now pos place.cell place.at) }
        ensures below { IfSome result (λ place. place.cell < cell_count self.now.dims self.now.cell) }
    {
        let counts = self.counts();
        let dims = self.dims();
        if pos[0] >= dims[0] || pos[1] >= dims[1] || pos[2] >= dims[2] {
            return None;
        }
        let at = [pos[0] as u32, pos[1] as u32, pos[2] as u32];
        let grid = quotients(at, self.cell());
        let inside = remainders(at, self.cell());
        let sides = self.sides_at(grid);
        Some(Place {
            cell: number(grid, counts),
            at: number(inside, sides),
        })
    }

    /// The coordinates of a voxel by its cell and its offset there.
    pub(crate) fn voxel(&self, place: Place) -> [u64; 3]
        requires cell { place.cell < cell_count self.now.dims self.now.cell }
        requires at { place.at < volume (sides_at self.now (position_of place.cell (counts self.now))) }
        ensures { IsVoxel self.now result place.cell place.at }
    {
        let grid = self.grid_of(place.cell);
        let inside = position_of(place.at, self.sides_at(grid));
        coordinates(grid, self.cell(), inside)
    }
}

/// How many cells lie along each axis.
fn counts(dims: [u64; 3], cell: [u32; 3]) -> [u32; 3]
    requires { IsGrid (record { dims = dims; cell = cell }) }
    ensures { result ≡ counts (record { dims = dims; cell = cell }) }
{
    [
        (dims[0] as u32).div_ceil(cell[0]),
        (dims[1] as u32).div_ceil(cell[1]),
        (dims[2] as u32).div_ceil(cell[2]),
    ]
}

/// What a cell covers along an axis.
fn covered(dim: u64, cell: u32, grid: u32) -> u32
    requires dim { dim < 2 ^ 31 }
    requires cell { 0 < cell }
    requires inside { grid < div_ceil dim cell }
    ensures { result ≡ min cell (dim - grid * cell) }
{
    cell.min(dim as u32 - grid * cell)
}

/// The three quotients.
fn quotients(at: [u32; 3], by: [u32; 3]) -> [u32; 3]
    requires { AreWithin (1 ∷ 1 ∷ 1 ∷ []) by }
    ensures { result ≡ quotients at by }
{
    [at[0] / by[0], at[1] / by[1], at[2] / by[2]]
}

/// The three remainders.
fn remainders(at: [u32; 3], by: [u32; 3]) -> [u32; 3]
    requires { AreWithin (1 ∷ 1 ∷ 1 ∷ []) by }
    ensures { result ≡ remainders at by }
{
    [at[0] % by[0], at[1] % by[1], at[2] % by[2]]
}

/// The coordinates of a position inside a cell.
fn coordinates(grid: [u32; 3], cell: [u32; 3], inside: [u32; 3]) -> [u64; 3]
    ensures { result ≡ coordinates (record { dims = []; cell = cell }) grid inside }
{
    [
        grid[0] as u64 * cell[0] as u64 + inside[0] as u64,
        grid[1] as u64 * cell[1] as u64 + inside[1] as u64,
        grid[2] as u64 * cell[2] as u64 + inside[2] as u64,
    ]
}
