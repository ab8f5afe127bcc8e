//! Equality and copies of values.

use crate::common::{
    Tested, Tester, each_value, expect, expect_converted, expect_dump, expect_eq, long, parts,
};
use jzon::number::NAN;
use jzon::object::Object;
use jzon::short::Short;
use jzon::{JsonValue, Result, object, parse};
use jzon_test_support::joined;
use std::alloc::Global;

/// `==` from both sides, and `!=`.
fn expect_equal(rt: &impl Tester, left: &JsonValue, right: &JsonValue, is_equal: bool) {
    expect_eq(rt, "left == right", left == right, is_equal);
    expect_eq(rt, "right == left", right == left, is_equal);
    expect_eq(rt, "left != right", left != right, !is_equal);
}

/// Two values, and whether they are equal.
const EQUAL: &[(&str, &str, bool)] = &[
    ("null", "null", true),
    ("true", "true", true),
    ("\"a\"", "\"a\"", true),
    ("5e2", "500", true),
    ("-0e7", "0", true),
    ("[1,[]]", "[1.0,[]]", true),
    ("{\"a\":1,\"b\":2}", "{\"b\":2,\"a\":1.0}", true),
    ("null", "false", false),
    ("true", "false", false),
    ("\"a\"", "\"b\"", false),
    ("\"null\"", "null", false),
    ("\"a\"", "\"ab\"", false),
    ("1e20", "1", false),
    ("[]", "{}", false),
    ("[1]", "[1,1]", false),
    ("[1,2]", "[2,1]", false),
    ("{\"a\":1}", "{\"a\":2}", false),
    ("{\"a\":1}", "{\"b\":1}", false),
    ("{\"a\":1}", "{\"a\":1,\"b\":1}", false),
];

#[test]
fn equals(rt: HostRuntime) -> Tested {
    for (left, right, is_equal) in EQUAL {
        let one = parse(rt.alloc(), left)?;
        let other = parse(rt.alloc(), right)?;
        expect_equal(&rt, &one, &other, *is_equal);
    }
    Ok(())
}

#[test]
fn equals_what_is_kept_otherwise(rt: HostRuntime) -> Tested {
    let long = long(rt.alloc(), "a")?;
    for (text, is_equal) in [("a", true), ("ab", false)] {
        let short = JsonValue::Short(Short::from_slice(text));
        expect_equal(&rt, &long, &short, is_equal);
    }
    let nan = JsonValue::Number(NAN);
    expect_equal(&rt, &nan, &JsonValue::Number(NAN), true);
    expect_equal(&rt, &nan, &JsonValue::Null, false);
    expect_equal(&rt, &nan, &parts(true, 0, 0), false);
    Ok(())
}

/// `{"a":[TEXT,100,true]}`
fn with_text(alloc: Global, text: JsonValue) -> Result<JsonValue> {
    Ok(object! {alloc; a: [text, 100, true]})
}

#[test]
fn equals_what_is_kept_otherwise_inside(rt: HostRuntime) -> Tested {
    let alloc = rt.alloc();
    let value = parse(alloc, "{\"a\":[\"bc\",100,true]}")?;
    for (text, is_equal) in [("bc", true), ("bd", false)] {
        let owned = with_text(alloc, long(alloc, text)?)?;
        expect_equal(&rt, &value, &owned, is_equal);
        let short = with_text(alloc, jzon::from(alloc, text)?)?;
        expect_equal(&rt, &value, &short, is_equal);
        expect_equal(&rt, &owned, &short, true);
    }
    Ok(())
}

const CLONED: &[&str] = &[
    "null",
    "true",
    "1.50",
    "\"a\"",
    "[[],{},[null,{\"a\":\"b\"}],true]",
    "[null,true,1.50,\"a\",\"abcdefghijklmnopqrstuvwxyz01234\",[],{\"b\":[1],\"a\":{}}]",
];

/// By `clone` and by std's `Clone`, alone, in a list and in a slice. A string that is allocated stays
/// so, however short it is.
fn expect_copies(rt: &impl Tester, value: JsonValue, text: &str) -> Tested {
    expect_copy(rt, &value.clone(rt.alloc())?, &value, text);
    expect_copy(rt, &Clone::clone(&value)?, &value, text);
    let items = vec![in rt.alloc(); value]?;
    let list = joined(rt.alloc(), &[("[", 1), (text, 1), ("]", 1)])?;
    expect_converted(rt, rt.alloc(), items.as_slice(), list.as_str());
    expect_dump(rt, &JsonValue::Array(items.clone()?), list.as_str());
    Ok(())
}

fn expect_copy(rt: &impl Tester, copy: &JsonValue, value: &JsonValue, text: &str) {
    expect_equal(rt, copy, value, true);
    let is_allocated = matches!(value, JsonValue::String(_));
    expect_eq(rt, text, matches!(copy, JsonValue::String(_)), is_allocated);
    expect_dump(rt, copy, text);
}

/// An empty string, a short one and one of 31 bytes that are allocated are among these values.
#[test]
fn clones(rt: HostRuntime) -> Tested {
    let alloc = rt.alloc();
    for text in CLONED {
        expect_copies(&rt, parse(alloc, text)?, text)?;
    }
    for (text, value) in each_value(alloc)? {
        expect_copies(&rt, value, text)?;
    }
    Ok(())
}

#[derive(Clone, Drop)]
struct Setting {
    name: String,
    value: JsonValue,
    fallback: Option<Object>,
}

#[test]
fn derives_clone(rt: HostRuntime) -> Tested {
    let alloc = rt.alloc();
    let text = "{\"b\":[null,true,1.50,\"a\"],\"a\":{}}";
    let setting = Setting {
        name: String::from_str(alloc, "x")?,
        value: parse(alloc, text)?,
        fallback: Some(Object::new(alloc)),
    };
    let copy = setting.clone()?;
    expect_eq(&rt, "the string", copy.name.as_str(), "x");
    expect(&rt, "the object", copy.fallback.is_some());
    expect(&rt, "the value", copy.value == setting.value);
    expect_dump(&rt, &copy.value, text);
    Ok(())
}
