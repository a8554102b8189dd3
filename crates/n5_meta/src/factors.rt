// The factors of a setup. An error is the first rule that they break.
ghost use Rattle.std.specs.Prelude.{◌≡◌, ◌≤◌, ◌-◌, ◌^◌, All, IfOk};
ghost use Rattle.serde_json.specs.View.{view, items_view};
ghost use Rattle.n5_meta.specs.Factors.{all_three, factors_in, factors_of, rows_or};
ghost use Rattle.n5_meta.specs.Value.{AnswersRead};

use crate::value::{array_of, numbers_of, object_in, small_three_of};
use crate::{Member, MetaErr};
use plain_data::Items;
use serde_json::Value;
use std::alloc::Global;

/// Reads the factors of a setup, three for each level, from the member `downsamplingFactors` of its attributes.
/// This is the form that BigDataViewer writes.
#[tactic(auto, unfolding(crate::specs::Factors::factors_in))]
pub(crate) fn read_factors(alloc: Global, bytes: &[u8]) -> Result<Items<[u32; 3]>, MetaErr>
    ensures { AnswersRead (λ factors. factors) result (factors_in bytes.now) }
{
    let value = object_in(alloc, bytes)?;
    factors_of(alloc, &value)
}

#[tactic(auto, unfolding(crate::specs::Factors::factors_of))]
fn factors_of(alloc: Global, value: &Value) -> Result<Items<[u32; 3]>, MetaErr>
    ensures { AnswersRead (λ factors. factors) result (factors_of (view value.now)) }
{
    let items = array_of(value, Member::Factors)?;
    let rows = rows_of(alloc, items)?;
    all_three_of(alloc, rows.as_slice())
}

/// The rows of whole numbers that items are.
fn rows_of(alloc: Global, items: &[Value]) -> Result<Items<Items<u64>>, MetaErr>
    ensures rows { AnswersRead (λ rows. rows) result (rows_or (items_view items.now)) }
    ensures within { IfOk result (λ rows. All (All (λ n. n ≤ 2 ^ 32 - 1)) rows) }
{
    let mut rows = Items::new(alloc);
    for item in items {
        let Some(numbers) = item.as_array() else {
            return Err(MetaErr::BadNumber {
                member: Member::Factors,
            });
        };
        let row = numbers_of(alloc, numbers.as_slice(), u32::MAX as u64, Member::Factors)?;
        if rows.push(row).is_err() {
            return Err(MetaErr::Memory);
        }
    }
    Ok(rows)
}

/// One number for each axis in each row.
fn all_three_of(alloc: Global, rows: &[Items<u64>]) -> Result<Items<[u32; 3]>, MetaErr>
    requires { All (All (λ n. n ≤ 2 ^ 32 - 1)) rows.now }
    ensures { AnswersRead (λ factors. factors) result (all_three rows.now) }
{
    let mut factors = Items::new(alloc);
    for row in rows {
        let factor = small_three_of(row.as_slice())?;
        if factors.push(factor).is_err() {
            return Err(MetaErr::Memory);
        }
    }
    Ok(factors)
}
