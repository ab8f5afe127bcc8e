//! The errors of a value that isn't what is expected. Inlined, they would add their locals to each
//! reader, which clears room for them at each call, also if it succeeds: so most are cold.

ghost use Rattle.std.specs.Prelude.{◌≡◌, None, false, map, true};
ghost use Rattle.std.specs.Option.{is_some};
ghost use Rattle.jzon.specs.PairList.{find};
ghost use Rattle.jzon.specs.Readers.{entries, is_object};
ghost use Rattle.jzon.specs.Value.{Value};
ghost use Rattle.jzon.specs.View.{view};
ghost use Rattle.jzon_typed.specs.Decode.{IsErrorIn};
ghost use Rattle.jzon_typed.specs.DecodeExpected.{Refuses};
ghost use Rattle.jzon_typed.specs.Integers.{may_be_cut_in};
ghost use Rattle.jzon_pointer.specs.Names.{is_among};

use jzon::JsonValue;
use jzon_pointer::error::{Error, Expected, Known, What, found_in};
use std::alloc::Global;

/// The error of a value that a caller's own test refuses. The words say what it expects.
///
/// ```rust
/// None => Err(decode::expected(alloc, value, "a price")),
/// ```
pub fn expected(alloc: Global, value: &JsonValue, words: &'static str) -> Error
    ensures { IsErrorIn (view value.now) result }
{
    wrong(alloc, value, Expected::Other(words))
}

/// The error of a value that isn't what is expected.
#[cold]
pub(super) fn wrong(alloc: Global, value: &JsonValue, expected: Expected) -> Error
    ensures { Refuses expected (view value.now) → IsErrorIn (view value.now) result }
{
    match found_in(alloc, value) {
        Ok(found) => Error::new(alloc, What::Wrong { expected, found }),
        Err(_refused) => Error::MEMORY,
    }
}

/// The error of a number of which digits may have been cut.
#[cold]
pub(super) fn cut(alloc: Global, value: &JsonValue, expected: Expected) -> Error
    ensures { may_be_cut_in (view value.now) ≡ true → IsErrorIn (view value.now) result }
{
    match found_in(alloc, value) {
        Ok(found) => Error::new(alloc, What::Cut { expected, found }),
        Err(_refused) => Error::MEMORY,
    }
}

/// The error, at the key, of an object that lacks it.
#[cold]
pub(super) fn missing(alloc: Global, key: &str, expected: Expected) -> Error
    ensures { (v : Value) → is_object v ≡ true → find key.now (entries v) ≡ None
        → IsErrorIn v result }
{
    Error::new(alloc, What::Missing(expected)).below_key(alloc, key)
}

/// The error, at the key, of an object that has an unknown one.
pub(super) fn unknown(alloc: Global, key: &str, known: Known) -> Error
    ensures { (v : Value) → is_object v ≡ true → is_some (find key.now (entries v)) ≡ true
        → is_among (map (λ n. n.now) known.now) key.now ≡ false → IsErrorIn v result }
{
    Error::new(alloc, What::Unknown(known)).below_key(alloc, key)
}
