//! Types of `serde` read from JSON, and written as JSON, by its derives.
//!
//! Reading goes over a value (`tree`, `format`); writing sends the calls of `Serialize`, its events, to
//! a sink, which makes a value or a text (`events`, `sinks`). docs/SERDE.md has examples.
#![tactic(auto)]

ghost use Rattle.std.specs.Prelude.{◌≡◌, chars, Err, IfErr, IsOk, None};
ghost use Rattle.std.specs.Str.{IsUtf8};
ghost use Rattle.jzon.specs.Error.TheVariants.{FailedUtf8Parsing};
ghost use Rattle.jzon.specs.Reading.{strict_exact};
ghost use Rattle.jzon_pointer.specs.Errors.{error_at};
ghost use Rattle.jzon_serde.specs.Errors.{IsAccepted, IsOfReading, IsOfValue};

mod errors;
mod events;
mod fault;
mod format;
mod number;
mod sinks;
mod tree;
mod wrappers;

use events::{Events, Sink};
use fault::Fault;
use jzon::codegen::{DumpGenerator, Generator, PrettyGenerator, WriterGenerator};
use jzon::{JsonValue, Reading, parse_located};
use jzon_pointer::error::Error;
use serde::{DeserializeOwned, Deserializer, Serialize};
use sinks::{Text, Tree};
use std::alloc::Global;
use std::io::Write;
use std::{io, str};
use tree::TreeFormat;
pub use wrappers::{Exact, Json};

/// The bytes reserved for a text at first: a small one needs one allocation.
const FIRST_ROOM: usize = 1024;

/// Reads a type of `serde` from a value. An error has a JSON Pointer and no place.
///
/// ```rust
/// let back: T = from_value(alloc, &value)?;
/// ```
pub fn from_value<T: DeserializeOwned>(alloc: Global, value: &JsonValue) -> Result<T, Error>
    ensures { IfErr result IsOfValue }
{
    read(alloc, value).map_err(|fault| fault.into_error(alloc, value))
}

/// Reads a type of `serde` from a text, strictly and exactly: a repeated key, and a number that would
/// lose digits, are errors. The error of a wrong value has its line and column.
///
/// The clauses: a text that such a reading rejects is never read, and its error is that reading's. An
/// error about a value comes only of a text that is accepted, and its place, if it has one, is in it.
///
/// ```rust
/// let mut config: Config = jzon_serde::from_str(alloc, text)?;
/// ```
pub fn from_str<T: DeserializeOwned>(alloc: Global, text: &str) -> Result<T, Error>
    ensures accepted { IsOk result → IsAccepted strict_exact (chars text.now) }
    ensures error { IfErr result (IsOfReading strict_exact text.now) }
{
    from_str_as(alloc, text, &Reading::LOSSLESS)
}

/// As `from_str`, by a reading of your choice: how strict, exact and deep.
pub fn from_str_as<T: DeserializeOwned>(
    alloc: Global,
    text: &str,
    reading: &Reading,
) -> Result<T, Error>
    ensures accepted { IsOk result → IsAccepted reading.now (chars text.now) }
    ensures error { IfErr result (IsOfReading reading.now text.now) }
{
    let value = parse_located(alloc, text, reading)?;
    read(alloc, &value).map_err(|fault| fault.in_text(alloc, &value, text, reading))
}

/// As `from_str`, of bytes, which are an error if they aren't UTF-8.
pub fn from_slice<T: DeserializeOwned>(alloc: Global, bytes: &[u8]) -> Result<T, Error>
    ensures accepted { IsOk result → IsUtf8 bytes.now × IsAccepted strict_exact (chars bytes.now) }
    ensures error { IsUtf8 bytes.now → IfErr result (IsOfReading strict_exact bytes.now) }
    ensures bytes { ¬ IsUtf8 bytes.now → result ≡ Err (error_at FailedUtf8Parsing None) }
{
    match str::from_utf8(bytes) {
        Ok(text) => from_str(alloc, text),
        Err(_) => Err(Error::from(jzon::Error::FailedUtf8Parsing)),
    }
}

/// The value that a type of `serde` is written as. Of a key written twice, as by a flattened struct,
/// the last value counts. NaN, infinity, integers above 64 bits and over 512 open containers fail.
///
/// ```rust
/// let mut value: JsonValue = jzon_serde::to_value(alloc, &order)?;
/// ```
pub fn to_value<T: Serialize>(alloc: Global, source: &T) -> Result<JsonValue, Error>
    ensures { IfErr result IsOfValue }
{
    let (tree, done) = written(alloc, source, Tree::new(alloc));
    done?;
    Ok(tree.whole)
}

/// The compact text of a type of `serde`: that of `to_value`'s `dump`, without the value. A key that
/// is written twice is twice in it.
///
/// ```rust
/// let text = to_string(alloc, &read)?;
/// ```
pub fn to_string<T: Serialize>(alloc: Global, source: &T) -> Result<String, Error> {
    let mut out = DumpGenerator::new(alloc);
    out.get_writer().reserve(FIRST_ROOM)?;
    let (text, done) = written(alloc, source, Text::new(out));
    done?;
    Ok(text.out.consume()?)
}

/// As `to_string`, with a line for each element and entry, indented by two spaces: that of `pretty`.
pub fn to_string_pretty<T: Serialize>(alloc: Global, source: &T) -> Result<String, Error> {
    let mut out = PrettyGenerator::new(alloc, 2);
    out.get_writer().reserve(FIRST_ROOM)?;
    let (text, done) = written(alloc, source, Text::new(out));
    done?;
    Ok(text.out.consume()?)
}

/// Writes the compact text to a writer, in many small pieces: give it a `BufWriter`. An error is the
/// writer's, or that of `to_string` as an `io::Error`; a part of the text may be written before it.
///
/// ```rust
/// to_writer(alloc, &mut out, &json)?;
/// ```
pub fn to_writer<W: Write, T: Serialize>(alloc: Global, out: &mut W, source: &T) -> io::Result<()> {
    let (text, done) = written(alloc, source, Text::new(WriterGenerator::new(out)));
    match text.slot {
        Some(error) => Err(error),
        None => Ok(done?),
    }
}

/// Reads a type from the whole of a value; the `Deserializer`'s input is empty.
fn read<T: DeserializeOwned>(alloc: Global, value: &JsonValue) -> Result<T, Fault> {
    let mut tree = TreeFormat::new(alloc, value);
    let read = T::deserialize_owned(alloc, &mut Deserializer::new(&[], &mut tree))?;
    tree.end()?;
    Ok(read)
}

/// The sink after the events of `source`, and `Ok` if they were one whole value.
fn written<T: Serialize, S: Sink + Drop>(
    alloc: Global,
    source: &T,
    sink: S,
) -> (S, Result<(), Error>)
    ensures { IfErr result.1 IsOfValue }
{
    let mut events = Events::new(alloc, sink);
    let done = source.serialize(&mut events).and_then(|()| events.end());
    // A fault of writing has no indexes.
    let done = done.map_err(|fault| fault.into_error(alloc, &JsonValue::Null));
    (events.sink, done)
}
