// The voxels of level 1: means of eight voxels of level 0.
ghost use Rattle.std.specs.Prelude.{◌≡◌, ◌+◌, ◌*◌, ◌^◌, ◌<◌, ◌≤◌, ◌++◌, IfOk, OnOk, length};
ghost use Rattle.demo_volume.specs.Voxels.{mean, means, mean_plane, mean_row, pair};

use crate::levels::{COARSE, FINE};
use std::alloc::{AllocError, Global};

/// The voxels of level 1, by those of level 0.
#[tactic(auto, using(crate::proofs::BelowLemmas::joined_more, crate::proofs::BelowLemmas::joined_none))]
pub(crate) fn means(alloc: Global, fine: &[u16]) -> Result<Vec<u16>, AllocError>
    requires { length fine.now ≡ 512 * 512 * 64 }
    ensures voxels { IfOk result (λ voxels. voxels.items ≡ means fine.now) }
    ensures count { IfOk result (λ voxels. length voxels.items ≡ 256 * 256 * 32) }
{
    let mut voxels = Vec::new(alloc);
    for z in 0..COARSE[2] {
        add_plane(&mut voxels, fine, z)?;
    }
    Ok(voxels)
}

/// Adds a plane of level 1.
#[tactic(auto, using(crate::proofs::BelowLemmas::joined_more, crate::proofs::BelowLemmas::joined_none))]
fn add_plane(voxels: &mut Vec<u16>, fine: &[u16], z: usize) -> Result<(), AllocError>
    requires all { length fine.now ≡ 512 * 512 * 64 }
    requires inside { z < 32 }
    ensures added { OnOk result (voxels.new.items ≡ voxels.old.items ++ mean_plane fine.now z) }
    ensures count { OnOk result (length voxels.new.items ≡ length voxels.old.items + 256 * 256) }
{
    for y in 0..COARSE[1] {
        add_row(voxels, fine, y, z)?;
    }
    Ok(())
}

/// Adds a row of level 1.
#[tactic(auto, using(crate::proofs::BelowLemmas::each_more, crate::proofs::BelowLemmas::each_none))]
fn add_row(voxels: &mut Vec<u16>, fine: &[u16], y: usize, z: usize) -> Result<(), AllocError>
    requires all { length fine.now ≡ 512 * 512 * 64 }
    requires row { y < 256 }
    requires plane { z < 32 }
    ensures added { OnOk result (voxels.new.items ≡ voxels.old.items ++ mean_row fine.now y z) }
    ensures count { OnOk result (length voxels.new.items ≡ length voxels.old.items + 256) }
{
    for x in 0..COARSE[0] {
        voxels.push(mean(fine, x, y, z))?;
    }
    Ok(())
}

/// The mean of the eight voxels of level 0 that a voxel of level 1 covers, rounded down.
fn mean(fine: &[u16], x: usize, y: usize, z: usize) -> u16
    requires all { length fine.now ≡ 512 * 512 * 64 }
    requires column { x < 256 }
    requires row { y < 256 }
    requires plane { z < 32 }
    ensures { result ≡ mean fine.now x y z }
{
    let at = 2 * x + FINE[0] * (2 * y + FINE[1] * (2 * z));
    let plane = FINE[0] * FINE[1];
    let near = pair(fine, at) + pair(fine, at + FINE[0]);
    let far = pair(fine, at + plane) + pair(fine, at + plane + FINE[0]);
    ((near + far) / 8) as u16
}

/// The sum of a voxel and the next one along x.
fn pair(fine: &[u16], at: usize) -> u32
    requires { at + 1 < length fine.now }
    ensures sum { result ≡ pair fine.now at }
    ensures small { result < 2 ^ 17 }
{
    fine[at] as u32 + fine[at + 1] as u32
}
