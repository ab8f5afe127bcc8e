//! Reads a text as a type, and writes it in each way.

use crate::types::*;
use jzon::JsonValue;
use jzon_pointer::error::Error;
use jzon_serde::{Exact, Json, from_str, from_value, to_string, to_string_pretty, to_value};
use serde::{DeserializeOwned, Serialize};
use std::alloc::Global;
use std::collections::{BTreeMap, BTreeSet};
use std::test::Fail;

/// What a text is written as again, through its type, or the error's message.
pub fn again(alloc: Global, kind: &str, text: &str) -> Result<String, Fail> {
    match integer(alloc, kind, text) {
        Some(Ok(text)) => Ok(text),
        Some(Err(error)) => Ok(format!(in alloc; "{error}")?),
        None => Err(Fail::from("no such type")),
    }
}

type Read = Result<String, Error>;

fn integer(alloc: Global, kind: &str, text: &str) -> Option<Read> {
    match kind {
        "u8" => Some(written::<u8>(alloc, text)),
        "u16" => Some(written::<u16>(alloc, text)),
        "u32" => Some(written::<u32>(alloc, text)),
        "u64" => Some(written::<u64>(alloc, text)),
        "u128" => Some(written::<u128>(alloc, text)),
        "i8" => Some(written::<i8>(alloc, text)),
        "i16" => Some(written::<i16>(alloc, text)),
        "i32" => Some(written::<i32>(alloc, text)),
        "i64" => Some(written::<i64>(alloc, text)),
        "i128" => Some(written::<i128>(alloc, text)),
        _ => scalar(alloc, kind, text),
    }
}

fn scalar(alloc: Global, kind: &str, text: &str) -> Option<Read> {
    match kind {
        "f32" => Some(written::<f32>(alloc, text)),
        "f64" => Some(written::<f64>(alloc, text)),
        "bool" => Some(written::<bool>(alloc, text)),
        "char" => Some(written::<char>(alloc, text)),
        "String" => Some(written::<String>(alloc, text)),
        "()" => Some(written::<()>(alloc, text)),
        "Option" => Some(written::<Option<u8>>(alloc, text)),
        "Exact" => Some(written::<Exact>(alloc, text)),
        "Json" => Some(written::<Json>(alloc, text)),
        _ => container(alloc, kind, text),
    }
}

fn container(alloc: Global, kind: &str, text: &str) -> Option<Read> {
    match kind {
        "Floats" => Some(written::<Vec<Option<f64>>>(alloc, text)),
        "Vec" => Some(written::<Vec<Vec<u8>>>(alloc, text)),
        "pair" => Some(written::<(u8, String)>(alloc, text)),
        "array" => Some(written::<[u8; 3]>(alloc, text)),
        "set" => Some(written::<BTreeSet<u8>>(alloc, text)),
        "map" => Some(written::<BTreeMap<u8, u8>>(alloc, text)),
        "names" => Some(written::<BTreeMap<String, u8>>(alloc, text)),
        "ids" => Some(written::<BTreeMap<i32, bool>>(alloc, text)),
        "levels" => Some(written::<BTreeMap<Level, u8>>(alloc, text)),
        "evens" => Some(written::<BTreeMap<Even, Even>>(alloc, text)),
        "lists" => Some(written::<BTreeMap<Vec<u8>, u8>>(alloc, text)),
        "flags" => Some(written::<BTreeMap<bool, u8>>(alloc, text)),
        "characters" => Some(written::<BTreeMap<char, u8>>(alloc, text)),
        _ => structure(alloc, kind, text),
    }
}

fn structure(alloc: Global, kind: &str, text: &str) -> Option<Read> {
    match kind {
        "Nothing" => Some(written::<Nothing>(alloc, text)),
        "Meters" => Some(written::<Meters>(alloc, text)),
        "Point" => Some(written::<Point>(alloc, text)),
        "Rgb" => Some(written::<Rgb>(alloc, text)),
        "Camel" => Some(written::<Camel>(alloc, text)),
        "Mixed" => Some(written::<Mixed>(alloc, text)),
        "Mixeds" => Some(written::<Vec<Mixed>>(alloc, text)),
        "Lists" => Some(written::<(Vec<Camel>, Vec<Limits>)>(alloc, text)),
        "Options" => Some(written::<Options>(alloc, text)),
        "Limits" => Some(written::<Limits>(alloc, text)),
        "Flat" => Some(written::<Flat>(alloc, text)),
        "Style" => Some(written::<Style>(alloc, text)),
        "Extra" => Some(written::<Extra>(alloc, text)),
        _ => choice(alloc, kind, text),
    }
}

fn choice(alloc: Global, kind: &str, text: &str) -> Option<Read> {
    match kind {
        "Level" => Some(written::<Level>(alloc, text)),
        "Shape" => Some(written::<Shape>(alloc, text)),
        "Check" => Some(written::<Check>(alloc, text)),
        "Packet" => Some(written::<Packet>(alloc, text)),
        "Either" => Some(written::<Either>(alloc, text)),
        "Kind" => Some(written::<Kind>(alloc, text)),
        "Kinds" => Some(written::<BTreeMap<String, Vec<Kind>>>(alloc, text)),
        "Folder" => Some(written::<Folder>(alloc, text)),
        "Wrapped" => Some(written::<Wrapped>(alloc, text)),
        "Page" => Some(written::<Page<Point>>(alloc, text)),
        "Even" => Some(written::<Even>(alloc, text)),
        "Deep" => Some(written::<Deep>(alloc, text)),
        "Config" => Some(written::<Page<Camel>>(alloc, text)),
        _ => None,
    }
}

/// The compact text. The value, its text on lines, and what is read of it must be the same.
pub fn written<T: DeserializeOwned + Serialize>(alloc: Global, text: &str) -> Read {
    let read: T = from_str(alloc, text)?;
    let text = to_string(alloc, &read)?;
    if is_written(alloc, &read, text.as_str())? {
        return Ok(text);
    }
    Ok(String::from_str(alloc, "not the same")?)
}

/// Whether its value and its text on lines say the same as the compact text, which is also that of
/// what is read of the value.
fn is_written<T: DeserializeOwned + Serialize>(
    alloc: Global,
    source: &T,
    text: &str,
) -> Result<bool, Error> {
    let value = to_value(alloc, source)?;
    let pretty = to_string_pretty(alloc, source)?;
    if !is_text(alloc, &value, text, pretty.as_str()) {
        return Ok(false);
    }
    let back: T = from_value(alloc, &value)?;
    Ok(to_string(alloc, &back)?.as_str() == text)
}

/// Whether these are the value's compact text and that on lines.
fn is_text(alloc: Global, value: &JsonValue, compact: &str, lines: &str) -> bool {
    match (value.dump(alloc), value.pretty(alloc, 2)) {
        (Ok(dump), Ok(pretty)) => dump.as_str() == compact && pretty.as_str() == lines,
        _ => false,
    }
}
