// Rows of elements: one loop for each width, so that each is a plain loop over two slices.
ghost use Rattle.std.specs.Prelude.{◌≡◌, ℕ, ◌*◌, ◌^◌, ◌<◌, length, slice_index, flat_map};
ghost use Rattle.voxel_box.specs.BigEndian.{big_endian};
ghost use Rattle.n5_block.specs.Block.{IsWidth};
ghost use Rattle.n5_block.specs.Rows.{AreElements};

use byteorder::{BigEndian, ByteOrder};

/// Reads a row of elements.
pub(crate) fn read_row(width: u32, row: &[u8], out: &mut [u64])
    requires width { IsWidth width }
    requires whole { length row.now ≡ width * length out.old }
    ensures { AreElements width row.now out.new }
{
    match width {
        1 => read_bytes(row, out),
        2 => read_u16s(row, out),
        4 => read_u32s(row, out),
        _ => read_u64s(row, out),
    }
}

fn read_bytes(row: &[u8], out: &mut [u64])
    requires { length row.now ≡ 1 * length out.old }
    ensures { AreElements 1 row.now out.new }
{
    for i in 0..out.len() {
        out[i] = row[i] as u64;
    }
}

fn read_u16s(row: &[u8], out: &mut [u64])
    requires { length row.now ≡ 2 * length out.old }
    ensures { AreElements 2 row.now out.new }
{
    for i in 0..out.len() {
        out[i] = BigEndian::read_u16(&row[2 * i..]) as u64;
    }
}

fn read_u32s(row: &[u8], out: &mut [u64])
    requires { length row.now ≡ 4 * length out.old }
    ensures { AreElements 4 row.now out.new }
{
    for i in 0..out.len() {
        out[i] = BigEndian::read_u32(&row[4 * i..]) as u64;
    }
}

fn read_u64s(row: &[u8], out: &mut [u64])
    requires { length row.now ≡ 8 * length out.old }
    ensures { AreElements 8 row.now out.new }
{
    for i in 0..out.len() {
        out[i] = BigEndian::read_u64(&row[8 * i..]);
    }
}

/// Writes a row of elements, each of which fits into the width.
pub(crate) fn write_row(width: u32, values: &[u64], out: &mut [u8])
    requires width { IsWidth width }
    requires fits { (i : ℕ) → slice_index values.now i < 256 ^ width }
    requires whole { length out.old ≡ width * length values.now }
    ensures { out.new ≡ flat_map (big_endian width) values.now }
{
    match width {
        1 => write_bytes(values, out),
        2 => write_u16s(values, out),
        4 => write_u32s(values, out),
        _ => write_u64s(values, out),
    }
}

fn write_bytes(values: &[u64], out: &mut [u8])
    requires fits { (i : ℕ) → slice_index values.now i < 256 ^ 1 }
    requires whole { length out.old ≡ 1 * length values.now }
    ensures { out.new ≡ flat_map (big_endian 1) values.now }
{
    for i in 0..values.len() {
        out[i] = values[i] as u8;
    }
}

fn write_u16s(values: &[u64], out: &mut [u8])
    requires fits { (i : ℕ) → slice_index values.now i < 256 ^ 2 }
    requires whole { length out.old ≡ 2 * length values.now }
    ensures { out.new ≡ flat_map (big_endian 2) values.now }
{
    for i in 0..values.len() {
        BigEndian::write_u16(&mut out[2 * i..], values[i] as u16);
    }
}

fn write_u32s(values: &[u64], out: &mut [u8])
    requires fits { (i : ℕ) → slice_index values.now i < 256 ^ 4 }
    requires whole { length out.old ≡ 4 * length values.now }
    ensures { out.new ≡ flat_map (big_endian 4) values.now }
{
    for i in 0..values.len() {
        BigEndian::write_u32(&mut out[4 * i..], values[i] as u32);
    }
}

fn write_u64s(values: &[u64], out: &mut [u8])
    requires { length out.old ≡ 8 * length values.now }
    ensures { out.new ≡ flat_map (big_endian 8) values.now }
{
    for i in 0..values.len() {
        BigEndian::write_u64(&mut out[8 * i..], values[i]);
    }
}
