// The values of a cell, or the refusal, by a get's answer.
ghost use Rattle.std.specs.Prelude.{◌≡◌, ℕ, ◌<◌, ◌≤◌, length, take, drop, replicate, slice_index, OnOk, OnErr, IfErr};
ghost use Rattle.cell_grid.specs.Kind.{greatest_of};
ghost use Rattle.cell_grid.specs.Pyramid.{cells_of, voxels_of, kind_of};
ghost use Rattle.cell_file.specs.File.{GivesValues, GivesRefusal};

use crate::FetchErr;
use crate::shape::{limit, width};
use cell_grid::Geometry;
use cell_store::Got;
use n5_block::read_block;

/// Puts the values that a get's answer gives to the front of a list: those of the block that it found, and zeros where
/// the key isn't held.
pub fn decide(
    got: Got,
    edited: bool,
    bytes: &[u8],
    geometry: &Geometry,
    cell: u32,
    out: &mut [u64],
) -> Result<(), FetchErr>
    requires cell { cell < cells_of geometry.now }
    requires room { voxels_of geometry.now cell ≤ length out.old }

    ensures values { OnOk result (GivesValues geometry.now cell got bytes.now (take (voxels_of geometry.now cell) out.new)) }
    ensures fits { OnOk result ((i : ℕ) → slice_index (take (voxels_of geometry.now cell) out.new) i ≤ greatest_of (kind_of geometry.now cell)) }
    ensures refused { IfErr result (λ err. GivesRefusal geometry.now cell edited got bytes.now err) }
    ensures unchanged { OnErr result (out.new ≡ out.old) }
    ensures rest { drop (voxels_of geometry.now cell) out.new ≡ drop (voxels_of geometry.now cell) out.old }
{
    match got {
        Got::Found => read(bytes, edited, geometry, cell, out),
        Got::Missing => {
            clear(geometry.voxels(cell), out);
            Ok(())
        }
        Got::TooLong { len } => Err(FetchErr::TooLong {
            edited,
            len,
            limit: limit(geometry, cell),
        }),
        Got::Failed => Err(FetchErr::ReadFault),
        Got::NoMemory => Err(FetchErr::Memory),
    }
}

/// Puts the values of a block to the front of a list.
fn read(
    bytes: &[u8],
    edited: bool,
    geometry: &Geometry,
    cell: u32,
    out: &mut [u64],
) -> Result<(), FetchErr>
    requires cell { cell < cells_of geometry.now }
    requires room { voxels_of geometry.now cell ≤ length out.old }

    ensures values { OnOk result (GivesValues geometry.now cell Got.Found bytes.now (take (voxels_of geometry.now cell) out.new)) }
    ensures fits { OnOk result ((i : ℕ) → slice_index (take (voxels_of geometry.now cell) out.new) i ≤ greatest_of (kind_of geometry.now cell)) }
    ensures refused { IfErr result (λ err. GivesRefusal geometry.now cell edited Got.Found bytes.now err) }
    ensures unchanged { OnErr result (out.new ≡ out.old) }
    ensures rest { drop (voxels_of geometry.now cell) out.new ≡ drop (voxels_of geometry.now cell) out.old }
{
    let width = width(geometry, cell);
    let need = geometry.sides(cell);
    let full = geometry.full(cell);
    match read_block(bytes, width, need, full, out) {
        Ok(()) => Ok(()),
        Err(err) => Err(FetchErr::Malformed { edited, err }),
    }
}

/// Puts zeros to the front of a list.
fn clear(count: u32, out: &mut [u64])
    requires { count ≤ length out.old }
    ensures zeros { take count out.new ≡ replicate count 0 }
    ensures rest { drop count out.new ≡ drop count out.old }
{
    out[..count as usize].fill(0);
}
