// Writing a raw block.
ghost use Rattle.std.specs.Prelude.{◌≡◌, ℕ, ◌+◌, ◌*◌, ◌^◌, ◌≤◌, ◌<◌, ◌++◌, length, take, drop, slice_index};
ghost use Rattle.voxel_box.specs.BigEndian.{big_endian};
ghost use Rattle.voxel_box.specs.Box.{volume};
ghost use Rattle.n5_block.specs.Block.{block, head, IsWidth};

use crate::head::HEAD;
use crate::rows::write_row;
use byteorder::{BigEndian, ByteOrder};

/// Writes the block of these sides and values, x fastest, to the front of `out`, and answers its length in bytes. One
/// pass over the values.
pub fn write_block(width: u32, sides: [u32; 3], values: &[u64], out: &mut [u8]) -> usize
    requires width { IsWidth width }
    requires count { length values.now ≡ volume sides }
    requires small { volume sides ≤ 2 ^ 21 }
    requires fits { (i : ℕ) → slice_index values.now i < 256 ^ width }
    requires room { 16 + width * volume sides ≤ length out.old }

    ensures len { result ≡ 16 + width * volume sides }
    ensures block { take result out.new ≡ block width sides values.now }
    ensures rest { drop result out.new ≡ drop result out.old }
{
    let end = HEAD + width as usize * values.len();
    write_head(sides, out);
    write_row(width, values, &mut out[HEAD..end]);
    end
}

/// Writes the head of a block of these sides.
fn write_head(sides: [u32; 3], out: &mut [u8])
    requires { 16 ≤ length out.old }
    ensures head { take 16 out.new ≡ head sides }
    ensures rest { drop 16 out.new ≡ drop 16 out.old }
{
    put_u16(out, 0, 0);
    put_u16(out, 2, 3);
    put_u32(out, 4, sides[0]);
    put_u32(out, 8, sides[1]);
    put_u32(out, 12, sides[2]);
}

/// Writes a number of two bytes at a place.
fn put_u16(out: &mut [u8], at: usize, n: u16)
    requires { at + 2 ≤ length out.old }
    ensures written { take (at + 2) out.new ≡ take at out.old ++ big_endian 2 n }
    ensures rest { drop (at + 2) out.new ≡ drop (at + 2) out.old }
{
    BigEndian::write_u16(&mut out[at..at + 2], n);
}

/// Writes a number of four bytes at a place.
fn put_u32(out: &mut [u8], at: usize, n: u32)
    requires { at + 4 ≤ length out.old }
    ensures written { take (at + 4) out.new ≡ take at out.old ++ big_endian 4 n }
    ensures rest { drop (at + 4) out.new ≡ drop (at + 4) out.old }
{
    BigEndian::write_u32(&mut out[at..at + 4], n);
}
