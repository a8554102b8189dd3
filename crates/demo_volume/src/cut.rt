// Voxels of a cell, cut out of its level row by row.
ghost use Rattle.std.specs.Prelude.{◌≡◌, ℕ, ◌+◌, ◌*◌, ◌^◌, ◌<◌, ◌≤◌, ◌++◌, [], IfOk, OnOk, length, slice_index};
ghost use Rattle.demo_volume.specs.Cells.{cut, cut_plane};

use crate::levels::CELL;
use std::alloc::{AllocError, Global};

/// The voxels of a box of 32 × 32 × 16: those of a level of this width and height, from this voxel of it on.
#[tactic(auto, using(crate::proofs::BelowLemmas::joined_more, crate::proofs::BelowLemmas::joined_none, crate::proofs::InsideLemmas::plane_inside))]
pub(crate) fn cut(
    alloc: Global,
    level: &[u16],
    width: usize,
    height: usize,
    start: usize,
) -> Result<Vec<u64>, AllocError>
    requires some { 1 ≤ width }
    requires inside { start + 31 + width * (31 + height * 15) < length level.now }
    requires few { length level.now < 2 ^ 32 }
    ensures values { IfOk result (λ values. values.items ≡ cut level.now width height start) }
    ensures count { IfOk result (λ values. length values.items ≡ 32 * 32 * 16) }
    ensures small { IfOk result (λ values. (i : ℕ) → slice_index values.items i < 2 ^ 16) }
{
    let mut values = Vec::new(alloc);
    for z in 0..CELL[2] {
        add_plane(
            &mut values,
            level,
            width,
            start + width * (height * z as usize),
        )?;
    }
    Ok(values)
}

/// Adds a plane of such a box.
#[tactic(auto, using(crate::proofs::BelowLemmas::joined_more, crate::proofs::BelowLemmas::joined_none, crate::proofs::InsideLemmas::row_inside))]
fn add_plane(
    values: &mut Vec<u64>,
    level: &[u16],
    width: usize,
    start: usize,
) -> Result<(), AllocError>
    requires inside { start + 31 + width * 31 < length level.now }
    requires few { length level.now < 2 ^ 32 }
    requires small { (i : ℕ) → slice_index values.old.items i < 2 ^ 16 }
    ensures added { OnOk result (values.new.items ≡ values.old.items ++ cut_plane level.now width start) }
    ensures count { OnOk result (length values.new.items ≡ length values.old.items + 32 * 32) }
    ensures small { (i : ℕ) → slice_index values.new.items i < 2 ^ 16 }
{
    for y in 0..CELL[1] {
        let at = start + width * y as usize;
        add_row(values, &level[at..at + 32])?;
    }
    Ok(())
}

/// Adds a row of voxels.
#[tactic(auto, using(crate::proofs::SmallLemmas::small_more))]
fn add_row(values: &mut Vec<u64>, row: &[u16]) -> Result<(), AllocError>
    requires small { (i : ℕ) → slice_index values.old.items i < 2 ^ 16 }
    ensures added { OnOk result (values.new.items ≡ values.old.items ++ row.now) }
    ensures count { OnOk result (length values.new.items ≡ length values.old.items + length row.now) }
    ensures small { (i : ℕ) → slice_index values.new.items i < 2 ^ 16 }
{
    for voxel in row {
        values.push(*voxel as u64)?;
    }
    Ok(())
}
