// Reading a raw block.
ghost use Rattle.std.specs.Prelude.{◌≡◌, ℕ, ◌+◌, ◌*◌, ◌^◌, ◌≤◌, ◌<◌, List, [], ◌∷◌, length, take, drop, OnOk, OnErr, IsOk, None, Some, slice_index};
ghost use Rattle.std.specs.Result.{result_err};
ghost use Rattle.voxel_box.specs.Box.{volume, number, IsWithin, AreWithin};
ghost use Rattle.n5_block.specs.Block.{IsWidth, IsGood};
ghost use Rattle.n5_block.specs.Rules.{broken_block_rule};
ghost use Rattle.n5_block.specs.Rows.{element_of, AreRowsTaken};
ghost use Rattle.n5_block.specs.Values.{values_in};

use crate::BlockErr;
use crate::head::{HEAD, checked_sides};
use crate::rows::read_row;

/// Reads the voxels of a cell from a block: those at positions inside `need`, the cell's cropped sides, to the front
/// of `out`. The block's own sides lie between `need` and `full`, and its elements past `need` are passed over. The
/// refusal is the first broken rule, and leaves `out` as it was. One pass over the needed elements.
pub fn read_block(
    bytes: &[u8],
    width: u32,
    need: [u32; 3],
    full: [u32; 3],
    out: &mut [u64],
) -> Result<(), BlockErr>
    requires width { IsWidth width }
    requires some { AreWithin (1 ∷ 1 ∷ 1 ∷ []) need }
    requires within { AreWithin need full }
    requires small { volume full ≤ 2 ^ 21 }
    requires room { volume need ≤ length out.old }

    ensures refused { result_err result ≡ broken_block_rule width need full bytes.now }
    ensures unchanged { OnErr result (out.new ≡ out.old) }
    ensures good { OnOk result (IsGood width need full bytes.now (take (volume need) out.new)) }
    ensures only { (values : List ℕ) → IsGood width need full bytes.now values → IsOk result }
    ensures rest { drop (volume need) out.new ≡ drop (volume need) out.old }

    // The same by the function of the bytes.
    ensures values { OnOk result (values_in width need full bytes.now ≡ Some (take (volume need) out.new)) }
    ensures void { OnErr result (values_in width need full bytes.now ≡ None) }
{
    let sides = checked_sides(bytes, width, need, full)?;
    copy_needed(&bytes[HEAD..], width, sides, need, out);
    Ok(())
}

/// Copies the elements at the positions that are needed. Where the block has the cell's own width and height they are
/// one long row.
fn copy_needed(elements: &[u8], width: u32, sides: [u32; 3], need: [u32; 3], out: &mut [u64])
    requires width { IsWidth width }
    requires within { AreWithin need sides }
    requires small { volume sides ≤ 2 ^ 21 }
    requires whole { length elements.now ≡ width * volume sides }
    requires room { volume need ≤ length out.old }
    ensures taken { (at : List ℕ) → IsWithin at need → slice_index out.new (number at need) ≡ element_of width elements.now (number at sides) }
    ensures rest { drop (volume need) out.new ≡ drop (volume need) out.old }
{
    if need[0] == sides[0] && need[1] == sides[1] {
        copy_whole(elements, width, need, out);
    } else {
        copy_planes(elements, width, sides, need, out);
    }
}

/// Copies as many elements as are needed, one after another.
fn copy_whole(elements: &[u8], width: u32, need: [u32; 3], out: &mut [u64])
    requires width { IsWidth width }
    requires whole { width * volume need ≤ length elements.now }
    requires small { volume need ≤ 2 ^ 21 }
    requires room { volume need ≤ length out.old }
    ensures taken { (n : ℕ) → n < volume need → slice_index out.new n ≡ element_of width elements.now n }
    ensures rest { drop (volume need) out.new ≡ drop (volume need) out.old }
{
    let count = (need[0] as u64 * need[1] as u64 * need[2] as u64) as usize;
    copy_row(elements, width, 0, count, 0, out);
}

/// Copies the rows of each plane.
#[tactic(auto, using(crate::proofs::Crops::none_taken))]
fn copy_planes(elements: &[u8], width: u32, sides: [u32; 3], need: [u32; 3], out: &mut [u64])
    requires width { IsWidth width }
    requires within { AreWithin need sides }
    requires small { volume sides ≤ 2 ^ 21 }
    requires whole { length elements.now ≡ width * volume sides }
    requires room { volume need ≤ length out.old }
    ensures taken { AreRowsTaken width elements.now sides need out.new (slice_index need 1 * slice_index need 2) }
    ensures rest { drop (volume need) out.new ≡ drop (volume need) out.old }
{
    for z in 0..need[2] {
        copy_plane(elements, width, sides, need, z, out);
    }
}

/// Copies the rows of a plane, where those of the planes before it are copied.
#[tactic(auto, using(crate::proofs::Crops::row_within))]
fn copy_plane(elements: &[u8], width: u32, sides: [u32; 3], need: [u32; 3], z: u32, out: &mut [u64])
    requires width { IsWidth width }
    requires within { AreWithin need sides }
    requires small { volume sides ≤ 2 ^ 21 }
    requires whole { length elements.now ≡ width * volume sides }
    requires room { volume need ≤ length out.old }
    requires plane { z < slice_index need 2 }
    requires before { AreRowsTaken width elements.now sides need out.old (slice_index need 1 * z) }
    ensures taken { AreRowsTaken width elements.now sides need out.new (slice_index need 1 * (z + 1)) }
    ensures rest { drop (volume need) out.new ≡ drop (volume need) out.old }
{
    for y in 0..need[1] {
        let from = row_start(sides, y, z);
        let to = row_start(need, y, z);
        copy_row(elements, width, from, need[0] as usize, to, out);
    }
}

/// The number of the first element of a row.
#[tactic(auto, using(crate::proofs::Crops::row_within))]
fn row_start(sides: [u32; 3], y: u32, z: u32) -> usize
    requires row { y < slice_index sides 1 }
    requires plane { z < slice_index sides 2 }
    requires small { volume sides ≤ 2 ^ 21 }
    ensures { result ≡ slice_index sides 0 * (y + slice_index sides 1 * z) }
{
    (sides[0] as u64 * (y as u64 + sides[1] as u64 * z as u64)) as usize
}

/// Copies elements from one place on to a place of `out`.
fn copy_row(elements: &[u8], width: u32, from: usize, count: usize, to: usize, out: &mut [u64])
    requires width { IsWidth width }
    requires small { from + count ≤ 2 ^ 21 }
    requires inside { width * (from + count) ≤ length elements.now }
    requires room { to + count ≤ length out.old }
    ensures taken { (x : ℕ) → x < count → slice_index out.new (to + x) ≡ element_of width elements.now (from + x) }
    ensures before { (i : ℕ) → i < to → slice_index out.new i ≡ slice_index out.old i }
    ensures rest { drop (to + count) out.new ≡ drop (to + count) out.old }
{
    let start = width as usize * from;
    let end = width as usize * (from + count);
    read_row(width, &elements[start..end], &mut out[to..to + count]);
}
