//! What is printed of one value: texts on one line and on lines, and what generators consume.

use crate::common::{Tested, Tester, empty_containers, expect, expect_dump, expect_eq, numbers};
use crate::memory::prettified;
use crate::whole::{expect_compact, expect_lines};
use jzon::codegen::{Compact, Generator, Layout, Pretty, TextGenerator};
use jzon::number::NAN;
use jzon::object::Object;
use jzon::{Error, JsonValue, array, parse, stringify, stringify_pretty};
use jzon_test_support::rows;
use std::alloc::Global;
use std::process::Abort;

#[test]
fn prints_containers(rt: HostRuntime) -> Tested {
    let value = empty_containers(rt.alloc())?;
    let text = "{\n  \"a\": [],\n  \"b\": {}\n}";
    expect_both(&rt, &value, "{\"a\":[],\"b\":{}}", 2, text);
    Ok(())
}

/// Numbers, their compact text, a number of spaces, and their text on lines.
const NUMBERS: &[(&[u64], &str, u16, &str)] = &[
    (&[1, 2], "[1,2]", 4, "[\n    1,\n    2\n]"),
    (&[1, 2], "[1,2]", 0, "[\n1,\n2\n]"),
    (&[1], "[1]", 0, "[\n1\n]"),
];

/// The value prints these texts, the second with this number of spaces.
fn expect_both(rt: &impl Tester, value: &JsonValue, compact: &str, spaces: u16, lines: &str) {
    expect_compact(rt, value, compact);
    expect_lines(rt, value, spaces, lines);
}

#[test]
fn prints_numbers(rt: HostRuntime) -> Tested {
    for (parts, compact, spaces, lines) in NUMBERS {
        expect_both(&rt, &numbers(rt.alloc(), parts)?, compact, *spaces, lines);
    }
    expect_both(&rt, &JsonValue::Number(NAN), "null", 2, "null");
    let inside = array![rt.alloc(); JsonValue::Number(NAN)];
    expect_both(&rt, &inside, "[null]", 2, "[\n  null\n]");
    Ok(())
}

#[test]
fn prints_the_most_spaces(rt: HostRuntime) -> Tested {
    let alloc = rt.alloc();
    let value = numbers(alloc, &[1])?;
    expect_eq(&rt, "pretty", value.pretty(alloc, 65535)?.len(), 65540);
    let text = prettified(&value, alloc, 65535)?;
    expect_eq(&rt, "PrettyGenerator", text.len(), 65540);
    let nested = JsonValue::Array(vec![in alloc; value]?);
    expect_eq(&rt, "nested", nested.pretty(alloc, 65535)?.len(), 262149);
    Ok(())
}

#[test]
fn prettifies_an_object(rt: HostRuntime) -> Tested {
    let mut object = Object::new(rt.alloc());
    object.insert(rt.alloc(), "a", JsonValue::Null)?;
    object.insert(rt.alloc(), "b", numbers(rt.alloc(), &[2])?)?;
    let found = object.pretty(rt.alloc(), 1)?;
    let text = "{\n \"a\": null,\n \"b\": [\n  2\n ]\n}";
    expect_eq(&rt, "lines", found.as_str(), text);
    Ok(())
}

#[test]
fn stringifies_what_is_pushed(rt: HostRuntime) -> Tested {
    let mut array = JsonValue::new_array(rt.alloc());
    array.push(rt.alloc(), 7)?;
    array.push(rt.alloc(), JsonValue::Null)?;
    array.push(rt.alloc(), true)?;
    array.push(rt.alloc(), Some("some text"))?;
    let text = stringify(rt.alloc(), array)?;
    let want = "[7,null,true,\"some text\"]";
    expect_eq(&rt, want, text.as_str(), want);
    Ok(())
}

const ON_ONE_LINE: &str =
    "{\"title\":\"Dune\",\"by\":{\"first\":\"Frank\",\"last\":\"Herbert\"},\"parts\":[\"one\",2]}";

const ON_LINES: &str =
    "{\n  \"title\": \"Dune\",\n  \"by\": {\n    \"first\": \"Frank\",\n    \"last\": \"Herbert\"\n  },\n  \"parts\": [\n    \"one\",\n    2\n  ]\n}";

#[test]
fn stringifies_lists_and_lines(rt: HostRuntime) -> Tested {
    let list = vec![in rt.alloc(); Some(1i32), None, Some(2)]?;
    let text = stringify(rt.alloc(), list)?;
    expect_eq(&rt, "a list", text.as_str(), "[1,null,2]");
    let text = stringify_pretty(rt.alloc(), parse(rt.alloc(), ON_ONE_LINE)?, 2)?;
    expect_eq(&rt, "lines", text.as_str(), ON_LINES);
    Ok(())
}

/// A text, and its value on lines, with four spaces for each open container.
const WITH_FOUR_SPACES: &[(&str, &str)] = rows! {
    ("[1,true,\"three\"]", "[\n    1,\n    true,\n    \"three\"\n]")
    ("{\"foo\":\"bar\",\"answer\":42}", "{\n    \"foo\": \"bar\",\n    \"answer\": 42\n}")
    ("\"foobar\"", "\"foobar\"")
    ("42", "42")
    ("true", "true")
    ("null", "null")
};

#[test]
fn prints_with_four_spaces(rt: HostRuntime) -> Tested {
    for (source, text) in WITH_FOUR_SPACES {
        expect_lines(&rt, &parse(rt.alloc(), source)?, 4, text);
    }
    Ok(())
}

#[test]
fn writes_null_for_nan(rt: HostRuntime) -> Tested {
    let alloc = rt.alloc();
    let value = array![alloc; JsonValue::Number(NAN)];
    let mut bytes: Vec<u8> = Vec::new(alloc);
    value.write(&mut bytes)?;
    expect_eq(&rt, "the bytes", bytes.as_slice(), b"[null]".as_slice());
    expect_dump(&rt, &value, "[null]");
    Ok(())
}

/// Bytes, and their text if they are UTF-8.
const CONSUMED: &[(&[u8], Option<&str>)] = &[
    (b"\xff", None),
    (b"\xc3", None),
    (b"\xed\xa0\x80", None),
    (b"\xc3\xa9", Some("é")),
];

/// A generator that was given these bytes, by `write` or by its writer itself, consumes them as this
/// text, or fails.
fn expect_consumed<L: Layout + Copy + Drop>(
    rt: &impl Abort,
    alloc: Global,
    layout: L,
    bytes: &[u8],
    text: Option<&str>,
) -> Tested {
    for is_direct in [false, true] {
        let mut generator = TextGenerator::in_memory(alloc, layout);
        if is_direct {
            generator.get_writer().extend_from_slice(bytes)?;
        } else {
            generator.write(bytes)?;
        }
        match generator.consume() {
            Ok(found) => expect_eq(rt, "the text", Some(found.as_str()), text),
            Err(error) => {
                let is_foreign = matches!(error, Error::FailedUtf8Parsing);
                expect(rt, "the error", is_foreign && text.is_none());
            }
        }
    }
    Ok(())
}

#[test]
fn consumes_no_foreign_bytes(rt: HostRuntime) -> Tested {
    for (bytes, text) in CONSUMED {
        expect_consumed(&rt, rt.alloc(), Compact, bytes, *text)?;
        expect_consumed(&rt, rt.alloc(), Pretty(2), bytes, *text)?;
    }
    Ok(())
}
