//! jzon's own types as fields of a type of `serde`: wrapped, as types and traits are other crates'.

ghost use Rattle.std.specs.Prelude.{Some};
ghost use Rattle.jzon.specs.NumberText.{decimal_text};

use crate::events::MAX_DEPTH;
use crate::number::number_of;
use jzon::JsonValue;
use jzon::number::{NAN, Number};
use jzon::object::{Key, Object};
use jzon::short::{MAX_LEN, Short};
use jzon::util::print_dec::number_text;
use serde::{Deserialize, Deserializer, Format, Kind, Serialize, Serializer};
use std::alloc::Global;
use std::fmt::{InlineText, Write};
use std::ops::Deref;
use std::{fmt, str};

/// What `Exact` says before its digits; no type's own words begin so.
pub(crate) const EXACT: &str = "\0jzon_serde::Exact ";

/// Any value, as a field of a type of `serde`: its entries in their order, its numbers exact.
///
/// ```rust
/// #[derive(Drop, Serialize, Deserialize)]
/// pub struct Extra {
///     kind: String,
///     details: Json,
///     more: Option<Json>,
/// }
/// ```
#[derive(Debug, Drop, Serialize, Deserialize)]
#[serde(transparent)]
pub struct Json(#[serde(serialize_with = "send_any", deserialize_with = "fetch_any")] JsonValue);

/// An exact decimal, as a field of a type of `serde`: it is read without rounding, and the calls of
/// this crate write all of its digits.
///
/// Other formats read the nearest float, and write a float if its shortest text means the number, as up
/// to 15 digits in a float's range do, and else return an error.
#[derive(Clone, Copy, Debug, PartialEq, Eq, Serialize, Deserialize)]
#[serde(transparent)]
pub struct Exact(#[serde(serialize_with = "send_exact", deserialize_with = "fetch_exact")] Number);

impl Deref for Json {
    type Target = JsonValue;

    fn deref(&self) -> &JsonValue {
        &self.0
    }
}

impl From<JsonValue> for Json {
    fn from(value: JsonValue) -> Json {
        Json(value)
    }
}

impl From<Json> for JsonValue {
    fn from(json: Json) -> JsonValue {
        json.0
    }
}

impl Deref for Exact {
    type Target = Number;

    fn deref(&self) -> &Number {
        &self.0
    }
}

impl From<Number> for Exact {
    fn from(number: Number) -> Exact {
        Exact(number)
    }
}

impl From<Exact> for Number {
    fn from(exact: Exact) -> Number {
        exact.0
    }
}

impl fmt::Display for Exact {
    ghost output = { λ e. Some (decimal_text e.0) };

    fn fmt<W: fmt::Write>(&self, f: &mut fmt::Formatter<W>) -> fmt::Result {
        write!(f, "{}", self.0)
    }
}

/// Writes a number with the exponent 0, but not `-0`, as an integer. Any other is told as an error's
/// words, which only `Events` takes. For other formats a float follows that means it, or a list as a
/// key, which none takes.
fn send_exact<S: Serializer>(number: &Number, out: &mut S) -> Result<(), S::Error> {
    if number.is_nan() {
        return Err(out.custom("a decimal that is no number"));
    }
    let (positive, mantissa, exponent) = number.as_parts();
    if exponent == 0 && positive {
        return out.u64(mantissa);
    }
    if exponent == 0 && 0 < mantissa {
        let integer = -i128::from(mantissa);
        return match i64::try_from(integer) {
            Ok(narrow) => out.i64(narrow),
            Err(_) => out.i128(integer),
        };
    }
    // Nothing is cut: `EXACT` has 19 bytes, and a number at most 29.
    let words = InlineText::<64>::of(EXACT).and(*number, 32);
    let _told = out.custom(words.as_str());
    let float: f64 = fast_float::from_parts(!positive, mantissa, i64::from(exponent));
    if number_of(ryu::Buffer::new().format(float)) == Some(*number) {
        return out.f64(float);
    }
    out.begin_key()?;
    out.begin_seq(None)
}

fn send_any<S: Serializer>(value: &JsonValue, out: &mut S) -> Result<(), S::Error> {
    send(value, out, MAX_DEPTH)
}

/// Writes any value, in which at most `depth` containers may be open.
#[cycle(send)]
fn send<S: Serializer>(value: &JsonValue, out: &mut S, depth: usize) -> Result<(), S::Error> {
    match value {
        JsonValue::Null => out.unit(),
        JsonValue::Boolean(truth) => out.bool(*truth),
        JsonValue::Number(number) if number.is_nan() => out.unit(),
        JsonValue::Number(number) => send_exact(number, out),
        JsonValue::Short(text) => out.str(text.as_str()),
        JsonValue::String(text) => out.str(text.as_str()),
        JsonValue::Array(items) if depth > 0 => send_items(items, out, depth - 1),
        JsonValue::Object(object) if depth > 0 => send_entries(object, out, depth - 1),
        _ => Err(out.custom("more than 512 containers are open")),
    }
}

/// `depth` is left to each element.
#[cycle(send)]
fn send_items<S: Serializer>(
    items: &Vec<JsonValue>,
    out: &mut S,
    depth: usize,
) -> Result<(), S::Error> {
    out.begin_seq(Some(items.len()))?;
    for item in items {
        send(item, out, depth)?;
    }
    out.end_seq()
}

/// `depth` is left to each value.
#[cycle(send)]
fn send_entries<S: Serializer>(object: &Object, out: &mut S, depth: usize) -> Result<(), S::Error> {
    out.begin_map(Some(object.len()))?;
    for (key, value) in object.iter() {
        out.key(key)?;
        send(value, out, depth)?;
    }
    out.end_map()
}

fn fetch_exact<F: Format>(
    alloc: Global,
    from: &mut Deserializer<'_, '_, F>,
) -> Result<Number, F::Error> {
    match from.peek()? {
        Kind::Unsigned => Ok(Number::from(from.u64()?)),
        Kind::Signed => Ok(Number::from(from.i64()?)),
        Kind::Float => fetch_number(alloc, from),
        // A map's key, as a float, or the format's error.
        _ => fetch_float(from),
    }
}

/// Reads a number by its text, which `TreeFormat` gives as bytes (`byte_buf`); where that fails or is
/// no number's text, as in other formats, goes back to the mark and reads a float. After a fatal error
/// the mark isn't released: the read fails.
fn fetch_number<F: Format>(
    alloc: Global,
    from: &mut Deserializer<'_, '_, F>,
) -> Result<Number, F::Error> {
    let mark = from.mark();
    let number = match from.byte_buf(alloc) {
        Ok(bytes) => str::from_utf8(bytes.as_slice()).ok().and_then(number_of),
        Err(error) if from.is_fatal(&error) => return Err(error),
        Err(_other) => None,
    };
    if number.is_none() {
        from.rewind(mark);
    }
    from.release(mark);
    match number {
        Some(number) => Ok(number),
        None => fetch_float(from),
    }
}

/// Reads a float, as the number of its shortest text: at most 17 digits, which fit. NaN and infinity,
/// which other formats may have, become NaN.
fn fetch_float<F: Format>(from: &mut Deserializer<'_, '_, F>) -> Result<Number, F::Error> {
    let float = from.f64()?;
    match number_of(ryu::Buffer::new().format(float)) {
        Some(number) => Ok(number),
        None if !float.is_finite() => Ok(NAN),
        None => Err(from.invalid()),
    }
}

fn fetch_any<F: Format>(
    alloc: Global,
    from: &mut Deserializer<'_, '_, F>,
) -> Result<JsonValue, F::Error> {
    fetch(alloc, from, MAX_DEPTH)
}

/// A string as a value, inline up to 30 bytes.
fn stored(text: String) -> JsonValue {
    if text.len() <= MAX_LEN {
        return JsonValue::Short(Short::from_slice(text.as_str()));
    }
    JsonValue::String(text)
}

/// Reads any value, in which at most `depth` containers may be open.
#[cycle(fetch)]
fn fetch<F: Format>(
    alloc: Global,
    from: &mut Deserializer<'_, '_, F>,
    depth: usize,
) -> Result<JsonValue, F::Error> {
    match from.peek()? {
        Kind::Unit => from.skip().map(|()| JsonValue::Null),
        Kind::Bool => Ok(JsonValue::Boolean(from.bool()?)),
        Kind::Unsigned => Ok(JsonValue::from(from.u64()?)),
        Kind::Signed => Ok(JsonValue::from(from.i64()?)),
        Kind::Float => Ok(JsonValue::Number(fetch_number(alloc, from)?)),
        Kind::Str => Ok(stored(from.string(alloc)?)),
        Kind::Seq if depth > 0 => Ok(JsonValue::Array(fetch_items(alloc, from, depth - 1)?)),
        Kind::Map if depth > 0 => Ok(JsonValue::Object(fetch_entries(alloc, from, depth - 1)?)),
        _ => Err(from.invalid()),
    }
}

/// Reads an array's elements. The loop's bound makes it end whatever the format says.
#[cycle(fetch)]
fn fetch_items<F: Format>(
    alloc: Global,
    from: &mut Deserializer<'_, '_, F>,
    depth: usize,
) -> Result<Vec<JsonValue>, F::Error> {
    from.begin_seq()?;
    let mut items = Vec::new(alloc);
    for _ in 0..u64::MAX {
        if !from.next_item()? {
            break;
        }
        let item = fetch(alloc, from, depth)?;
        items.push(item).map_err(|_| from.no_memory())?;
    }
    Ok(items)
}

/// Reads an object's entries; of a repeated key the last value is kept, at the first's position. The
/// loop's bound makes it end.
#[cycle(fetch)]
fn fetch_entries<F: Format>(
    alloc: Global,
    from: &mut Deserializer<'_, '_, F>,
    depth: usize,
) -> Result<Object, F::Error> {
    from.begin_map()?;
    let mut keys = Vec::new(alloc);
    let mut values = Vec::new(alloc);
    for _ in 0..u64::MAX {
        if !from.next_entry()? {
            break;
        }
        let text = from.string(alloc)?;
        let key = Key::new(alloc, text.as_str()).map_err(|_| from.no_memory())?;
        let value = fetch(alloc, from, depth)?;
        keys.push(key).map_err(|_| from.no_memory())?;
        values.push(value).map_err(|_| from.no_memory())?;
    }
    Object::from_entries(alloc, keys, values).map_err(|_| from.no_memory())
}
