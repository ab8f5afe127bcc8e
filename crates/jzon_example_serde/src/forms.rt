//! Other forms, which a line names: a type by hand, from a struct to a value, an error's parts, and the
//! toolchain's `serde_json` and `toml`.

use jiff::Timestamp;
use jzon::JsonValue;
use jzon_pointer::error::Error;
use jzon_serde::{Exact, Json};
use serde::{Described, Deserialize, Serialize, Serializer};
use std::alloc::Global;
use std::fmt::Display;
use std::io;
use std::result::Result;

/// A time, as RFC 3339 writes it.
#[derive(Clone, Copy, Deserialize)]
#[serde(try_from = "String")]
struct At(Timestamp);

impl TryFrom<String> for At {
    type Error = &'static str;

    fn try_from(text: String) -> Result<At, &'static str> {
        match text.as_str().parse() {
            Ok(time) => Ok(At(time)),
            Err(_) => Err("expected a time of RFC 3339"),
        }
    }
}

impl Described for At {}

impl Serialize for At {
    fn serialize<S: Serializer>(&self, out: &mut S) -> Result<(), S::Error> {
        out.collect_str(&self.0)
    }
}

#[derive(Drop, Serialize, Deserialize)]
struct Limits {
    timeout: u64,
    weight: f64,
}

#[derive(Drop, Serialize, Deserialize)]
struct Order {
    at: At,
    price: Exact,
    details: Json,
    #[serde(flatten)]
    limits: Limits,
}

/// A struct as a value, to which an entry is added.
fn marked(alloc: Global, text: &str) -> Result<String, Error> {
    let order: Order = jzon_serde::from_str(alloc, text)?;
    let mut value: JsonValue = jzon_serde::to_value(alloc, &order)?;
    value.insert(alloc, "isNew", true)?;
    Ok(value.dump(alloc)?)
}

/// The parts of an error, without the value.
fn hidden(alloc: Global, text: &str) -> Result<String, Error> {
    let read: Result<Order, Error> = jzon_serde::from_str(alloc, text);
    match read {
        Ok(order) => jzon_serde::to_string(alloc, &order.price),
        Err(error) => {
            let line = error.place().map_or(0, |place| place.line);
            let pointer = String::from_str(alloc, error.pointer())?;
            let error = error.without_value();
            Ok(format!(in alloc; "line {line}, {pointer}: {}", error.words())?)
        }
    }
}

/// The text again, through the toolchain's `serde_json`.
fn by_kit(alloc: Global, text: &str) -> Result<String, serde_json::Error> {
    let read: Json = serde_json::from_str(alloc, text)?;
    serde_json::to_string(alloc, &read)
}

/// The text as TOML.
fn as_toml(alloc: Global, text: &str) -> Result<String, toml::ser::WriteError> {
    match jzon_serde::from_str::<Json>(alloc, text) {
        Ok(read) => toml::to_string(alloc, &read),
        Err(_) => Ok(String::new(alloc)),
    }
}

/// The form that a line names, and the text after it.
pub fn named(line: &str) -> Option<(&str, &str)> {
    if line.starts_with('{') {
        return None;
    }
    line.split_once(' ')
}

/// What is printed for a line.
pub fn line_of(alloc: Global, form: &str, text: &str) -> io::Result<String> {
    match form {
        "marked" => printed(alloc, marked(alloc, text)),
        "hidden" => printed(alloc, hidden(alloc, text)),
        "kit" => printed(alloc, by_kit(alloc, text)),
        _ => printed(alloc, as_toml(alloc, text)),
    }
}

/// What was made, or the error.
fn printed<E: Display + Drop>(alloc: Global, made: Result<String, E>) -> io::Result<String> {
    match made {
        Ok(text) => Ok(text),
        Err(error) => Ok(format!(in alloc; "{error}")?),
    }
}
