// The rules for a JSON value and for the members of an object.
ghost use Rattle.std.specs.Prelude.{◌≡◌, ◌≤◌, ◌-◌, ◌^◌, All, IfOk};
ghost use Rattle.serde_json.specs.View.{view, items_view};
ghost use Rattle.n5_meta.specs.Value.{AnswersRead, GivesValue, array_member, string_at, object_at, object_in, numbers_up_to, numbers_or, three};

use crate::{Member, MetaErr};
use plain_data::Items;
use serde_json::Value;
use std::alloc::Global;

/// The value of a JSON text that is an object.
#[tactic(auto, unfolding(crate::specs::Value::object_in), using(crate::proofs::ValueLemmas::object_read, crate::proofs::ValueLemmas::no_object, crate::proofs::ValueLemmas::not_read))]
pub(crate) fn object_in(alloc: Global, bytes: &[u8]) -> Result<Value, MetaErr>
    ensures { AnswersRead view result (object_in bytes.now) }
{
    match Value::from_slice(alloc, bytes) {
        Ok(value) => {
            if !value.is_object() {
                return Err(MetaErr::NotJson);
            }
            Ok(value)
        }
        Err(error) => Err(if error.is_memory() {
            MetaErr::Memory
        } else {
            MetaErr::NotJson
        }),
    }
}

/// The items of a member that is an array.
pub(crate) fn array_of<'a>(value: &'a Value, member: Member) -> Result<&'a [Value], MetaErr>
    ensures { GivesValue (λ items. items_view items.now) result (array_member member (view value.now)) }
{
    match value.get(member.name()).and_then(Value::as_array) {
        Some(items) => Ok(items.as_slice()),
        None => Err(MetaErr::Missing { member }),
    }
}

/// The text of a member that is a string.
pub(crate) fn string_of<'a>(value: &'a Value, member: Member) -> Result<&'a str, MetaErr>
    ensures { GivesValue (λ text. text.now) result (string_at member (view value.now)) }
{
    match value.get(member.name()).and_then(Value::as_str) {
        Some(text) => Ok(text),
        None => Err(MetaErr::Missing { member }),
    }
}

/// A member that is an object.
pub(crate) fn object_of<'a>(value: &'a Value, member: Member) -> Result<&'a Value, MetaErr>
    ensures { GivesValue (λ found. view found.now) result (object_at member (view value.now)) }
{
    match value.get(member.name()) {
        Some(found) if found.is_object() => Ok(found),
        _ => Err(MetaErr::Missing { member }),
    }
}

/// The whole numbers that items are, none above `most`.
pub(crate) fn numbers_of(
    alloc: Global,
    items: &[Value],
    most: u64,
    member: Member,
) -> Result<Items<u64>, MetaErr>
    ensures numbers { AnswersRead (λ numbers. numbers) result (numbers_or member most (items_view items.now)) }
    ensures within { IfOk result (λ numbers. All (λ n. n ≤ most) numbers) }
{
    let mut numbers = Items::new(alloc);
    for item in items {
        match item.as_u64() {
            Some(number) if number <= most => {
                if numbers.push(number).is_err() {
                    return Err(MetaErr::Memory);
                }
            }
            _ => return Err(MetaErr::BadNumber { member }),
        }
    }
    Ok(numbers)
}

/// One number for each axis.
pub(crate) fn three_of(numbers: &[u64]) -> Result<[u64; 3], MetaErr>
    ensures { GivesValue (λ three. three) result (three numbers.now) }
{
    match numbers {
        [x, y, z] => Ok([*x, *y, *z]),
        _ => Err(MetaErr::Axes {
            count: numbers.len() as u64,
        }),
    }
}

/// One number of 32 bits for each axis.
pub(crate) fn small_three_of(numbers: &[u64]) -> Result<[u32; 3], MetaErr>
    requires { All (λ n. n ≤ 2 ^ 32 - 1) numbers.now }
    ensures { GivesValue (λ three. three) result (three numbers.now) }
{
    match numbers {
        [x, y, z] => Ok([*x as u32, *y as u32, *z as u32]),
        _ => Err(MetaErr::Axes {
            count: numbers.len() as u64,
        }),
    }
}
