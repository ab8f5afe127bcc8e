//! Macros that write a value in the form of its text (docs/RULES.md, "Conversions"). The value is
//! passed from call to call, so that a failed call leaves nothing to drop, and proofs are cheap.

ghost use Rattle.std.specs.Prelude.{◌≡◌, true, IfOk, IfErr, OnOk, codes};
ghost use Rattle.jzon_tree.specs.Changers.{IsRefusal, with_item, with_entry};
ghost use Rattle.jzon_tree.specs.Readers.{is_array, is_object};
ghost use Rattle.jzon_tree.specs.Value.{Value};
ghost use Rattle.jzon_tree.specs.View.{view};

use jzon_base::error::Result;
use jzon_tree::into_json::IntoJson;
use jzon_tree::value::JsonValue;
use std::alloc::Global;

/// Pushes the item and returns the array, for the code of `array!`. An error (memory, or no array)
/// drops it.
#[doc(hidden)]
pub fn with_item<T: IntoJson>(alloc: Global, mut array: JsonValue, item: T) -> Result<JsonValue>
    ensures ok { IfOk result
        (λ after. (v : Value) × T.means item v × (view after ≡ with_item v (view array))) }
    ensures array { OnOk result (is_array (view array) ≡ true) }
    ensures refusal { IfErr result (IsRefusal (is_array (view array)) (codes "Array")) }
{
    array.push(alloc, item)?;
    Ok(array)
}

/// Inserts the entry, or replaces the value of the key, and returns the object, for the code of
/// `object!`. An error (memory, or no object) drops it.
#[doc(hidden)]
pub fn with_entry<T: IntoJson>(
    alloc: Global,
    mut object: JsonValue,
    key: &str,
    value: T,
) -> Result<JsonValue>
    ensures ok { IfOk result
        (λ after. (v : Value) × T.means value v
        × (view after ≡ with_entry key.now v (view object))) }
    ensures object { OnOk result (is_object (view object) ≡ true) }
    ensures refusal { IfErr result (IsRefusal (is_object (view object)) (codes "Object")) }
{
    object.insert(alloc, key, value)?;
    Ok(object)
}

/// A value: `null`, `[..]` as in `array!`, `{..}` as in `object!`, or an expression of a type that
/// is `IntoJson`. A failed allocation is propagated with `?`, so the function around it must return
/// a `Result`, of `Error` or of an error that is `From<Error>`.
#[macro_export]
macro_rules! value {
    ($alloc:expr; null) => {
        $crate::JsonValue::Null
    };
    ($alloc:expr; [$($items:tt)*]) => {
        $crate::array!($alloc; $($items)*)
    };
    ($alloc:expr; {$($pairs:tt)*}) => {
        $crate::object!($alloc; $($pairs)*)
    };
    ($alloc:expr; $value:expr) => {
        $crate::from($alloc, $value)?
    };
}

/// An array of elements separated by commas, a trailing one allowed. An element is anything that
/// `value!` takes, and an error is propagated with `?`.
///
/// ```rust
/// let list = jzon::array![alloc; 1u8, "two", null];
/// ```
#[macro_export]
macro_rules! array {
    ($alloc:expr; $($items:tt)*) => {{
        let alloc = $alloc;
        let array = $crate::JsonValue::new_array(alloc);
        $crate::push_items!(alloc array $($items)*);
        array
    }};
}

/// An object of entries separated by commas, a trailing one allowed. An entry is `key: value`, with
/// anything that `value!` takes, and an identifier, a string literal or `[expression]` as its key;
/// or it is `key => value`, with an expression as its key. Key expressions are of type `&str`. Of a
/// repeated key the last value is kept, at the position of the first. An error is propagated with
/// `?`.
///
/// ```rust
/// let built = jzon::object! {alloc; a: 5u8, "b": [true, null], c: list};
/// ```
#[macro_export]
macro_rules! object {
    ($alloc:expr; $($pairs:tt)*) => {{
        let alloc = $alloc;
        let object = $crate::JsonValue::new_object(alloc);
        $crate::insert_pairs!(alloc object $($pairs)*);
        object
    }};
}

/// Of `null`, `[..]` and `{..}` what `value!` makes; any other expression as it is, for `with_item`
/// and `with_entry` to convert.
#[doc(hidden)]
#[macro_export]
macro_rules! source {
    ($alloc:expr; null) => {
        $crate::value!($alloc; null)
    };
    ($alloc:expr; [$($items:tt)*]) => {
        $crate::value!($alloc; [$($items)*])
    };
    ($alloc:expr; {$($pairs:tt)*}) => {
        $crate::value!($alloc; {$($pairs)*})
    };
    ($alloc:expr; $value:expr) => {
        $value
    };
}

/// Pushes the items. The second rule takes one token tree, such as `null` or `[..]`, which
/// `source!` can match; the third any longer expression.
#[doc(hidden)]
#[macro_export]
macro_rules! push_items {
    ($alloc:ident $array:ident) => {};
    ($alloc:ident $array:ident $item:tt $(, $($rest:tt)*)?) => {
        let item = $crate::source!($alloc; $item);
        let $array = $crate::with_item($alloc, $array, item)?;
        $crate::push_items!($alloc $array $($($rest)*)?);
    };
    ($alloc:ident $array:ident $item:expr $(, $($rest:tt)*)?) => {
        let item = $item;
        let $array = $crate::with_item($alloc, $array, item)?;
        $crate::push_items!($alloc $array $($($rest)*)?);
    };
}

/// Inserts the entries one after another, with a rule for each form of key.
#[doc(hidden)]
#[macro_export]
macro_rules! insert_pairs {
    ($alloc:ident $object:ident) => {};
    ($alloc:ident $object:ident $key:ident : $($rest:tt)*) => {
        $crate::insert_value!($alloc $object (stringify!($key)) $($rest)*);
    };
    ($alloc:ident $object:ident $key:literal : $($rest:tt)*) => {
        $crate::insert_value!($alloc $object ($key) $($rest)*);
    };
    ($alloc:ident $object:ident [$key:expr] : $($rest:tt)*) => {
        $crate::insert_value!($alloc $object ($key) $($rest)*);
    };
    ($alloc:ident $object:ident $key:expr => $($rest:tt)*) => {
        $crate::insert_value!($alloc $object ($key) $($rest)*);
    };
}

/// Inserts the entry of this key, then those after it. Only a value of one token tree needs
/// `source!`.
#[doc(hidden)]
#[macro_export]
macro_rules! insert_value {
    ($alloc:ident $object:ident ($key:expr) $value:tt $(, $($rest:tt)*)?) => {
        let $object = $crate::with_entry($alloc, $object, $key, $crate::source!($alloc; $value))?;
        $crate::insert_pairs!($alloc $object $($($rest)*)?);
    };
    ($alloc:ident $object:ident ($key:expr) $value:expr $(, $($rest:tt)*)?) => {
        let $object = $crate::with_entry($alloc, $object, $key, $value)?;
        $crate::insert_pairs!($alloc $object $($($rest)*)?);
    };
}
