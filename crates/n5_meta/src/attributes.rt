// The attributes of a dataset. An error is the first rule that they break.
ghost use Rattle.std.specs.Prelude.{◌≡◌};
ghost use Rattle.serde_json.specs.View.{items_view, view};
ghost use Rattle.n5_meta.specs.Attr.{attr_of, attributes_in, attributes_of, kind_or, is_raw};
ghost use Rattle.n5_meta.specs.Value.{AnswersRead};

use crate::value::{
    array_of, numbers_of, object_in, object_of, small_three_of, string_of, three_of,
};
use crate::{Attr, Member, MetaErr};
use cell_grid::Kind;
use serde_json::Value;
use std::alloc::Global;

/// Reads the attributes of a dataset: a JSON object with `dimensions`, `blockSize`, `dataType` and `compression`,
/// as the N5 README has them, for three axes, unsigned kinds and the compression `raw`. Further members are ignored.
///
/// The refusal is the first broken rule: the bytes are a JSON object; the four members are there, an array, an
/// array, a string and an object; the items of `dimensions` and then of `blockSize` are whole numbers, of 64 and of
/// 32 bits; each has 3 items; the data type is `uint8`, `uint16`, `uint32` or `uint64`; the type of the compression
/// is `raw`. A spelling with a point or an exponent is no whole number.
#[tactic(auto, unfolding(crate::specs::Attr::attributes_in))]
pub fn read_attributes(alloc: Global, bytes: &[u8]) -> Result<Attr, MetaErr>
    ensures { AnswersRead (λ attr. attr) result (attributes_in bytes.now) }
{
    let value = object_in(alloc, bytes)?;
    attributes_of(alloc, &value)
}

#[tactic(auto, unfolding(crate::specs::Attr::attributes_of))]
fn attributes_of(alloc: Global, value: &Value) -> Result<Attr, MetaErr>
    ensures { AnswersRead (λ attr. attr) result (attributes_of (view value.now)) }
{
    let dims = array_of(value, Member::Dimensions)?;
    let cell = array_of(value, Member::BlockSize)?;
    let kind = string_of(value, Member::DataType)?;
    let compression = object_of(value, Member::Compression)?;
    attr_of(alloc, dims, cell, kind, compression)
}

/// What the members say.
#[tactic(auto, unfolding(crate::specs::Attr::attr_of))]
fn attr_of(
    alloc: Global,
    dims: &[Value],
    cell: &[Value],
    kind: &str,
    compression: &Value,
) -> Result<Attr, MetaErr>
    ensures { AnswersRead (λ attr. attr) result (attr_of (items_view dims.now) (items_view cell.now) kind.now (view compression.now)) }
{
    let dims = numbers_of(alloc, dims, u64::MAX, Member::Dimensions)?;
    let cell = numbers_of(alloc, cell, u32::MAX as u64, Member::BlockSize)?;
    let dims = three_of(dims.as_slice())?;
    let cell = small_three_of(cell.as_slice())?;
    let kind = kind_of(kind)?;
    if !is_raw(compression) {
        return Err(MetaErr::Compressed);
    }
    Ok(Attr { dims, cell, kind })
}

fn kind_of(text: &str) -> Result<Kind, MetaErr>
    ensures { result ≡ kind_or text.now }
{
    match text {
        "uint8" => Ok(Kind::U8),
        "uint16" => Ok(Kind::U16),
        "uint32" => Ok(Kind::U32),
        "uint64" => Ok(Kind::U64),
        _ => Err(MetaErr::Kind),
    }
}

fn is_raw(compression: &Value) -> bool
    ensures { result ≡ is_raw (view compression.now) }
{
    match compression.get("type").and_then(Value::as_str) {
        Some(text) => text == "raw",
        None => false,
    }
}
