//! The elements of an array, read by their indexes.

ghost use Rattle.std.specs.Prelude.{◌≡◌, true, IfOk, IfErr, IsOk, IsOkUnless};
ghost use Rattle.jzon.specs.View.{view};
ghost use Rattle.jzon_pointer.specs.Errors.{memory};
ghost use Rattle.jzon_typed.specs.Decode.{IsErrorIn};
ghost use Rattle.jzon_typed.specs.DecodeMaps.{IsArrayOf, ReadsItem, TakesItem};

use super::wrong::wrong;
use super::{Error, Expected, FromJson};
use jzon::JsonValue;
use std::alloc::Global;
use std::result::Result;

/// The element of an array at this index, read as a type: for a container of one's own. A value that
/// is no array, or has no such element, is an error.
///
/// ```rust
/// let from: u8 = decode::element(alloc, &value, 0)?;
/// ```
pub fn element<T: FromJson>(alloc: Global, value: &JsonValue, index: usize) -> Result<T, Error>
    ensures value { IfOk result (ReadsItem (view value.now) index T.gives) }
    ensures error { IfErr result (IsErrorIn (view value.now)) }
    ensures takes { TakesItem (view value.now) index T.takes → IsOkUnless result memory }
{
    let JsonValue::Array(items) = value else {
        return Err(wrong(alloc, value, Expected::Array));
    };
    let Some(item) = items.get(index) else {
        return Err(wrong(alloc, value, Expected::Above(index)));
    };
    match T::from_json(alloc, item) {
        Ok(read) => Ok(read),
        Err(error) => Err(error.below_index(alloc, index)),
    }
}

/// Fails if the value isn't an array of this many elements.
pub(super) fn check_len(alloc: Global, value: &JsonValue, count: usize) -> Result<(), Error>
    ensures value { IfOk result (λ _. IsArrayOf count (view value.now)) }
    ensures error { IfErr result (IsErrorIn (view value.now)) }
    ensures takes { IsArrayOf count (view value.now) → IsOk result }
{
    if value.is_array() && value.len() == count {
        return Ok(());
    }
    Err(wrong(alloc, value, Expected::Exactly(count)))
}
