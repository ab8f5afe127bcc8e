//! What an error says, beside its message.

use crate::common::{Tested, Tester, expect, expect_eq};
use crate::types::{Camel, Level, Page, Rgb, Seconds};
use jzon::{JsonValue, Reading};
use jzon_pointer::error::{Error, What};
use jzon_serde::{
    Exact, Json, from_slice, from_str, from_str_as, from_value, to_string, to_value, to_writer,
};
use jzon_test_support::{SlowWriter, Trouble, joined, rows};
use serde::{DeserializeOwned, Serialize};
use std::collections::BTreeMap;
use std::io;
use std::io::ErrorKind;
use std::result::Result;
use std::test::Fail;

/// The error of a text that isn't read as the type.
fn error_of<T: Drop>(read: Result<T, Error>) -> Result<Error, &'static str> {
    match read {
        Ok(_read) => Err("it was read"),
        Err(error) => Ok(error),
    }
}

/// The error's message.
fn expect_message(rt: &impl Tester, row: &str, error: &Error, want: &str) -> Tested {
    let message = format!(in rt.alloc(); "{error}")?;
    expect_eq(rt, row, message.as_str(), want);
    Ok(())
}

/// It fails, with this message.
fn expect_refused<T: Drop>(
    rt: &impl Tester,
    row: &str,
    outcome: Result<T, Error>,
    want: &str,
) -> Tested {
    let error = error_of(outcome)?;
    expect_message(rt, row, &error, want)
}

/// The error's pointer, and its place: an offset, a line and a column.
fn expect_placed(
    rt: &impl Tester,
    row: &str,
    error: &Error,
    pointer: &str,
    want: (usize, usize, usize),
) {
    expect_eq(rt, row, error.pointer(), pointer);
    match error.place() {
        Some(place) => expect_eq(rt, row, (place.offset, place.line, place.column), want),
        None => expect(rt, row, false),
    }
}

/// A text, and the pointer and the offset, line and column of the error.
const PLACED: &[(&str, &str, usize, usize, usize)] = rows! {
    ("{\"items\": 5}", "/items", 10, 1, 11)
    ("{\"items\": [\n5]}", "/items/0", 12, 2, 1)
    ("{\"é\": [1, {\"]\": 2}], \"items\":\n\t[{}, 5]}", "/items/0/firstName", 33, 2, 3)
    ("{\"\\u0069tems\": \"5\"}", "/items", 15, 1, 16)
    (" [] ", "", 1, 1, 2)
};

#[test]
fn says_where(rt: HostRuntime) -> Tested {
    for (text, pointer, offset, line, column) in PLACED {
        let error = error_of(from_str::<Page<Camel>>(rt.alloc(), *text))?;
        expect_placed(&rt, *text, &error, *pointer, (*offset, *line, *column));
    }
    // A usual reading takes the last of equal keys, whose place an error has.
    let text = "{\"r\": 1, \"r\": \"2\", \"g\": 2, \"b\": 3}";
    let error = error_of(from_str_as::<Rgb>(rt.alloc(), text, &Reading::USUAL))?;
    expect_placed(&rt, text, &error, "/r", (14, 1, 15));
    Ok(())
}

/// A text that a usual reading accepts, and the message of its error, as a number.
const CUT: &[(&str, &str)] = rows! {
    (
        "18446744073709551616",
        "expected an integer, found 18446744073709551610, of which digits may be cut at (1:1)",
    )
    (
        "100.00000000000000000001",
        "expected an integer, found 100.00000000000000000, of which digits may be cut at (1:1)",
    )
};

#[test]
fn refuses_numbers_that_may_be_cut(rt: HostRuntime) -> Tested {
    for (text, want) in CUT {
        let error = error_of(from_str_as::<u64>(rt.alloc(), *text, &Reading::USUAL))?;
        expect_message(&rt, *text, &error, *want)?;
        expect(&rt, *text, matches!(error.what(), Some(What::Cut { .. })));
    }
    Ok(())
}

/// Texts, and the messages after `without_value`.
const HIDDEN: &[(&str, &str)] = rows! {
    ("{\"r\": \"secret\"}", "/r: expected an integer of at least 0, found a string at (1:7)")
    ("{\"r\": 12345}", "/r: expected an integer in the range of its type, found a number at (1:7)")
    ("\"secret\"", "expected an object, found a string at (1:1)")
    ("{\"r\": 1}", "/g: missing, expected a value at (1:1)")
};

#[test]
fn hides_values(rt: HostRuntime) -> Tested {
    for (text, want) in HIDDEN {
        let error = error_of(from_str::<Rgb>(rt.alloc(), *text))?;
        expect_message(&rt, *text, &error.without_value(), *want)?;
    }
    let error = error_of(from_str::<Level>(rt.alloc(), "\"secret\""))?;
    let want = "expected one of debug, info, warn at (1:1)";
    expect_message(&rt, "name", &error.without_value(), want)
}

/// Parts of a key, and how often each comes: the message is one line of at most 1,000 bytes.
const KEYS: &[&[(&str, usize)]] = &[
    &[("a", 1_000_000)],
    &[("\u{202e}", 1000)],
    &[("\\n", 1000)],
    &[("~", 300), ("/", 300)],
    &[("\u{1d11e}", 1000)],
    &[("\u{7f}\u{85}\u{2028}", 50)],
];

/// The message of the error of a text that isn't read as the type: a line of at most 1,000 bytes.
fn line_of<T: DeserializeOwned + Drop>(rt: &impl Tester, text: &str) -> Result<String, Fail> {
    let error = error_of(from_str::<T>(rt.alloc(), text))?;
    let message = format!(in rt.alloc(); "{error}")?;
    expect(rt, "length", message.len() <= 1000);
    let is_line = message.chars().all(|ch| !ch.is_control()
        && ch != '\u{202e}'
        && ch != '\u{2028}');
    expect(rt, "line", is_line);
    Ok(message)
}

#[test]
fn writes_short_messages(rt: HostRuntime) -> Tested {
    for parts in KEYS {
        let key = joined(rt.alloc(), *parts)?;
        let text = format!(in rt.alloc(); "{{\"{key}\": [\"{key}\"]}}")?;
        let message = line_of::<Camel>(&rt, text.as_str())?;
        let is_told = message.as_str().contains(": unknown key at (1:2)");
        expect(&rt, "words", is_told);
        let _message = line_of::<BTreeMap<String, u8>>(&rt, text.as_str())?;
    }
    Ok(())
}

/// What isn't written, and its message.
#[test]
fn refuses_to_write(rt: HostRuntime) -> Tested {
    for float in &[f64::NAN, f64::INFINITY, f64::NEG_INFINITY] {
        refuses(&rt, float, "a float that is no number")?;
    }
    refuses(&rt, &f32::NAN, "a float that is no number")?;
    let nan = Exact::from(jzon::number::NAN);
    refuses(&rt, &nan, "a decimal that is no number")?;
    refuses(&rt, &u128::MAX, "an integer of more than 64 bits")?;
    let mut map = BTreeMap::new(rt.alloc());
    map.insert((1u8, 2u8), 3u8)?;
    refuses(&rt, &map, "a key is a string, a number or a boolean")
}

/// Neither a text nor a value is made of it.
fn refuses<T: Serialize>(rt: &impl Tester, source: &T, words: &str) -> Tested {
    expect_refused(rt, words, to_string(rt.alloc(), source), words)?;
    expect_refused(rt, words, to_value(rt.alloc(), source), words)
}

/// It is written as this text.
fn expect_text<T: Serialize>(rt: &impl Tester, source: &T, want: &str) -> Tested {
    let text = to_string(rt.alloc(), source)?;
    expect_eq(rt, want, text.as_str(), want);
    Ok(())
}

/// Only a program makes NaN. It is printed as null, and read as null.
#[test]
fn reads_nan_as_null(rt: HostRuntime) -> Tested {
    let nan = JsonValue::Number(jzon::number::NAN);
    let none: Option<f64> = from_value(rt.alloc(), &nan)?;
    expect(&rt, "option", none.is_none());
    let json: Json = from_value(rt.alloc(), &nan)?;
    expect(&rt, "json", json.is_null());
    expect_text(&rt, &Json::from(nan), "null")
}

#[test]
fn reads_bytes(rt: HostRuntime) -> Tested {
    let rgb: Rgb = from_slice(rt.alloc(), b"{\"r\": 1, \"g\": 2, \"b\": 3}")?;
    expect_text(&rt, &rgb, "{\"r\":1,\"g\":2,\"b\":3}")?;
    let read = from_slice::<String>(rt.alloc(), b"\"\xff\"");
    expect_refused(&rt, "UTF-8", read, "Failed to parse UTF-8 bytes")
}

#[test]
fn reads_own_types(rt: HostRuntime) -> Tested {
    let value = jzon::parse(rt.alloc(), "[\"5\"]")?;
    let read: Vec<Seconds> = from_value(rt.alloc(), &value)?;
    expect_text(&rt, &read, "[5]")?;
    let error = error_of(from_str::<Vec<Seconds>>(rt.alloc(), "[\"5\", \"x\"]"))?;
    expect_message(&rt, "own", &error, "/1: expected seconds at (1:7)")?;
    let raised = io::Error::from(error);
    expect_eq(&rt, "kind", raised.kind(), ErrorKind::InvalidData);
    Ok(())
}

/// It isn't written, with an error of this kind.
fn expect_kind(rt: &impl Tester, row: &str, written: io::Result<()>, want: ErrorKind) {
    match written {
        Ok(()) => expect(rt, row, false),
        Err(error) => expect_eq(rt, row, error.kind(), want),
    }
}

/// A writer gets the compact text, and its error is returned.
#[test]
fn writes_to_a_writer(rt: HostRuntime) -> Tested {
    let alloc = rt.alloc();
    let json = Json::from(jzon::parse(alloc, "{\"a\": [1, {}], \"b\": \"x\"}")?);
    let mut broken = SlowWriter::new(alloc, 3, Trouble::TakesNothing);
    let written = to_writer(alloc, &mut broken, &json);
    expect_kind(&rt, "writer", written, ErrorKind::WriteZero);
    let mut out = Vec::new(alloc);
    let written = to_writer(alloc, &mut out, &f64::NAN);
    expect_kind(&rt, "value", written, ErrorKind::InvalidData);
    to_writer(alloc, &mut out, &json)?;
    expect_eq(&rt, "text", out.as_slice(), b"{\"a\":[1,{}],\"b\":\"x\"}");
    Ok(())
}
