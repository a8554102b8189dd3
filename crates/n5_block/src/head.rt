// The head of a block, and the rules that its bytes keep.
ghost use Rattle.std.specs.Prelude.{◌≡◌, ℕ, ◌+◌, ◌*◌, ◌^◌, ◌≤◌, length, OnOk, IfOk};
ghost use Rattle.std.specs.Result.{result_err};
ghost use Rattle.voxel_box.specs.Box.{volume, AreWithin};
ghost use Rattle.n5_block.specs.Block.{IsWidth};
ghost use Rattle.n5_block.specs.Rules.{number_at, sides_in, side_outside, wrong_length, broken_block_rule};

use crate::BlockErr;
use byteorder::{BigEndian, ByteOrder};

/// How many bytes stand before the elements.
pub(crate) const HEAD: usize = 16;

/// The sides of a block that breaks no rule.
pub(crate) fn checked_sides(
    bytes: &[u8],
    width: u32,
    need: [u32; 3],
    full: [u32; 3],
) -> Result<[u32; 3], BlockErr>
    requires width { IsWidth width }
    requires small { volume full ≤ 2 ^ 21 }

    ensures refused { result_err result ≡ broken_block_rule width need full bytes.now }
    ensures sides { IfOk result (λ sides. sides ≡ sides_in bytes.now) }
    ensures at_least { OnOk result (AreWithin need (sides_in bytes.now)) }
    ensures at_most { OnOk result (AreWithin (sides_in bytes.now) full) }
    ensures head { OnOk result ((number_at bytes.now 0 2 ≡ 0) × (number_at bytes.now 2 2 ≡ 3)) }
    ensures whole { OnOk result (length bytes.now ≡ 16 + width * volume (sides_in bytes.now)) }
{
    let len = bytes.len() as u64;
    if len < HEAD as u64 {
        return Err(BlockErr::Short { len, need: 16 });
    }
    let mode = u16_at(bytes, 0);
    if mode != 0 {
        return Err(BlockErr::Mode { found: mode });
    }
    let axes = u16_at(bytes, 2);
    if axes != 3 {
        return Err(BlockErr::Axes { found: axes });
    }
    let sides = [u32_at(bytes, 4), u32_at(bytes, 8), u32_at(bytes, 12)];
    if let Some(refusal) = side_outside(0, need[0], full[0], sides[0]) {
        return Err(refusal);
    }
    if let Some(refusal) = side_outside(1, need[1], full[1], sides[1]) {
        return Err(refusal);
    }
    if let Some(refusal) = side_outside(2, need[2], full[2], sides[2]) {
        return Err(refusal);
    }
    match wrong_length(len, block_len(width, sides, full)) {
        Some(refusal) => Err(refusal),
        None => Ok(sides),
    }
}

/// How long a block of these sides is.
#[tactic(auto, using(voxel_box::proofs::BoxLemmas::volume_le, crate::proofs::Sizes::size_le))]
fn block_len(width: u32, sides: [u32; 3], full: [u32; 3]) -> u64
    requires width { IsWidth width }
    requires within { AreWithin sides full }
    requires small { volume full ≤ 2 ^ 21 }
    ensures { result ≡ 16 + width * volume sides }
{
    let _ = full;
    16 + width as u64 * (sides[0] as u64 * sides[1] as u64 * sides[2] as u64)
}

/// The refusal of a side, where it is outside its bounds.
fn side_outside(axis: u8, low: u32, high: u32, side: u32) -> Option<BlockErr>
    ensures { result ≡ side_outside axis low high side }
{
    if side < low || high < side {
        Some(BlockErr::Side { axis, found: side })
    } else {
        None
    }
}

/// The refusal of a length, where it isn't the one that is needed.
fn wrong_length(len: u64, need: u64) -> Option<BlockErr>
    ensures { result ≡ wrong_length len need }
{
    if len < need {
        Some(BlockErr::Short { len, need })
    } else if need < len {
        Some(BlockErr::Trailing { len, need })
    } else {
        None
    }
}

fn u16_at(bytes: &[u8], start: usize) -> u16
    requires { start + 2 ≤ length bytes.now }
    ensures { result ≡ number_at bytes.now start 2 }
{
    BigEndian::read_u16(&bytes[start..])
}

fn u32_at(bytes: &[u8], start: usize) -> u32
    requires { start + 4 ≤ length bytes.now }
    ensures { result ≡ number_at bytes.now start 4 }
{
    BigEndian::read_u32(&bytes[start..])
}
