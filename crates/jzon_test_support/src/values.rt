//! Values of each kind, and what can't become a value.

ghost use Rattle.std.specs.Prelude.{◌≡◌};

use jzon_base::error::{Error, Result};
use jzon_base::number::{NAN, Number};
use jzon_tree::into_json::IntoJson;
use jzon_tree::object::Object;
use jzon_tree::value::JsonValue;
use std::alloc::Global;

/// A value of each kind, empty too. Its compact text is the same text.
pub const EACH_KIND: &[&str] = &[
    "null",
    "true",
    "false",
    "0",
    "-0",
    "7",
    "-12.50",
    "1e30",
    "18446744073709551615",
    "\"\"",
    "\"ab\"",
    "\"abcdefghijklmnopqrstuvwxyz0123\"",
    "\"abcdefghijklmnopqrstuvwxyz01234\"",
    "[]",
    "[1]",
    "[\"\",[],{},-7,null,true]",
    "{}",
    "{\"\":\"\"}",
    "{\"ab\":[1],\"c\":\"d\",\"\":{}}",
];

/// A number of these parts.
pub fn parts(positive: bool, mantissa: u64, exponent: i16) -> JsonValue {
    JsonValue::Number(Number::from_parts_unchecked(positive, mantissa, exponent))
}

/// A whole number.
pub fn number(mantissa: u64) -> JsonValue {
    parts(true, mantissa, 0)
}

/// An allocated string, however short.
pub fn long(alloc: Global, text: &str) -> Result<JsonValue> {
    Ok(JsonValue::String(String::from_str(alloc, text)?))
}

/// A value that no text is read as, or that is kept otherwise than one that was read: its compact
/// text, and the value.
pub fn each_unread(alloc: Global) -> Result<[(&'static str, JsonValue); 8]> {
    let thirty = long(alloc, "abcdefghijklmnopqrstuvwxyz0123")?;
    let mut emptied = JsonValue::new_object(alloc);
    emptied.insert(alloc, "a", 1)?;
    emptied.clear();
    Ok([
        ("null", JsonValue::Number(NAN)),
        ("\"\"", long(alloc, "")?),
        ("\"a\"", long(alloc, "a")?),
        ("\"abcdefghijklmnopqrstuvwxyz0123\"", thirty),
        ("[]", JsonValue::Array(Vec::with_capacity(alloc, 5)?)),
        ("{}", JsonValue::Object(Object::with_capacity(alloc, 5)?)),
        ("{}", JsonValue::Object(Object::with_capacity(alloc, 0)?)),
        ("{}", emptied),
    ])
}

/// Can't become a value: its conversion runs out of memory.
#[derive(Drop)]
pub struct Unconvertible;

impl IntoJson for Unconvertible {
    fn into_json(self, _alloc: Global) -> Result<JsonValue> {
        Err(Error::OutOfMemory)
    }
}
