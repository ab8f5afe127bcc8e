//! What is read of a value, and of a view into one.

use crate::common::{Tested, Tester, expect, expect_eq, is_entry, long, number};
use jzon::number::NAN;
use jzon::object::Object;
use jzon::{JsonValue, View, parse};

/// Whether it is null, a boolean, a number, a string, an object, an array.
type Kinds = [bool; 6];

const NULL: Kinds = [true, false, false, false, false, false];

const BOOLEAN: Kinds = [false, true, false, false, false, false];

const NUMBER: Kinds = [false, false, true, false, false, false];

const STRING: Kinds = [false, false, false, true, false, false];

const OBJECT: Kinds = [false, false, false, false, true, false];

const ARRAY: Kinds = [false, false, false, false, false, true];

/// The kind of a value or of a view, whether it is empty, and its length.
macro_rules! kind {
    ($read:expr) => {
        (
            [
                $read.is_null(),
                $read.is_boolean(),
                $read.is_number(),
                $read.is_string(),
                $read.is_object(),
                $read.is_array(),
            ],
            $read.is_empty(),
            $read.len(),
        )
    };
}

fn expect_kind(rt: &impl Tester, value: &JsonValue, kinds: Kinds, empty: bool, len: usize) {
    expect_eq(rt, "a value", kind!(value), (kinds, empty, len));
    let view = value.as_view();
    expect_eq(rt, "a view", kind!(view), (kinds, empty, len));
}

/// A value, its kind, whether it is empty, and its length.
const KINDS: &[(&str, Kinds, bool, usize)] = &[
    ("null", NULL, true, 0),
    ("false", BOOLEAN, true, 0),
    ("true", BOOLEAN, false, 0),
    ("0", NUMBER, true, 0),
    ("7", NUMBER, false, 0),
    ("\"\"", STRING, true, 0),
    ("\"a\"", STRING, false, 0),
    ("\"abcdefghijklmnopqrstuvwxyz01234\"", STRING, false, 0),
    ("{}", OBJECT, true, 0),
    ("{\"a\":1,\"b\":null}", OBJECT, false, 2),
    ("[]", ARRAY, true, 0),
    ("[1,\"x\"]", ARRAY, false, 2),
];

#[test]
fn reads_kind_emptiness_and_length(rt: HostRuntime) -> Tested {
    let alloc = rt.alloc();
    for (text, kinds, empty, len) in KINDS {
        expect_kind(&rt, &parse(alloc, text)?, *kinds, *empty, *len);
    }
    expect_kind(&rt, &JsonValue::Number(NAN), NUMBER, true, 0);
    expect_kind(&rt, &long(alloc, "")?, STRING, true, 0);
    expect_kind(&rt, &long(alloc, "a")?, STRING, false, 0);
    Ok(())
}

/// The string, the whole number and the boolean that are read.
type Primitive<'a> = (Option<&'a str>, Option<u64>, Option<bool>);

/// They are read of a value, or of a view, and it equals them alone.
macro_rules! expect_primitive {
    ($rt:expr, $read:expr, $text:expr, $whole:expr, $boolean:expr) => {
        expect_eq($rt, "as_str", $read.as_str(), $text);
        expect_eq($rt, "as_u64", $read.as_u64(), $whole);
        expect_eq($rt, "at point 0", $read.as_fixed_point_u64(0), $whole);
        expect_eq($rt, "as_bool", $read.as_bool(), $boolean);
        let parts = $read.as_number().map(|read| read.as_parts());
        expect_eq($rt, "the parts", parts, $whole.map(|whole| (true, whole, 0)));
        expect_eq($rt, "eq_str", $read.eq_str("a"), matches!($text, Some("a")));
        expect_eq($rt, "eq_str", $read.eq_str("world"), matches!($text, Some("world")));
        expect_eq($rt, "eq_u64", $read.eq_u64(7), matches!($whole, Some(7)));
        expect_eq($rt, "eq_bool", $read.eq_bool(true), $boolean == Some(true));
        expect_eq($rt, "eq_bool", $read.eq_bool(false), $boolean == Some(false));
    };
}

fn expect_of_value(rt: &impl Tester, value: &JsonValue, (text, whole, boolean): Primitive<'_>) {
    expect_primitive!(rt, value, text, whole, boolean);
    expect_of_view(rt, value.as_view(), (text, whole, boolean));
}

fn expect_of_view(rt: &impl Tester, view: View<'_>, (text, whole, boolean): Primitive<'_>) {
    expect_primitive!(rt, view, text, whole, boolean);
}

/// A value, and the string, the whole number and the boolean that are read of it.
const PRIMITIVES: &[(&str, Option<&str>, Option<u64>, Option<bool>)] = &[
    ("null", None, None, None),
    ("\"a\"", Some("a"), None, None),
    ("\"\"", Some(""), None, None),
    ("7", None, Some(7), None),
    ("true", None, None, Some(true)),
    ("{\"a\":1}", None, None, None),
    ("[1]", None, None, None),
];

#[test]
fn reads_strings_numbers_and_booleans(rt: HostRuntime) -> Tested {
    for (source, text, whole, boolean) in PRIMITIVES {
        let value = parse(rt.alloc(), source)?;
        expect_of_value(&rt, &value, (*text, *whole, *boolean));
    }
    expect_of_value(&rt, &long(rt.alloc(), "a")?, (Some("a"), None, None));
    Ok(())
}

/// It is `{"a":1,"b":2}`.
fn look_into_an_object(rt: &impl Tester, object: &JsonValue) {
    expect(rt, "a", object.get("a") == Some(&number(1)));
    expect(
        rt,
        "no c",
        object.get("c").is_none() && !object.has_key("c"),
    );
    expect(rt, "b", object.has_key("b"));
    expect(rt, "contains", !object.contains(&number(1)));
    let len = object.as_object().map(Object::len);
    expect_eq(rt, "the length", len, Some(2));
    expect(rt, "as_array", object.as_array().is_none());
    expect(rt, "at_index", object.at_index(0).value().is_none());
    expect_eq(rt, "members", object.members().len(), 0);
    let mut entries = object.entries();
    expect(rt, "the first", is_entry(entries.next(), "a", 1));
    expect(rt, "the last", is_entry(entries.next_back(), "b", 2));
    expect(rt, "no more", entries.next().is_none());
}

/// It is `[1,2]`.
fn look_into_an_array(rt: &impl Tester, array: &JsonValue) {
    expect(rt, "no a", array.get("a").is_none() && !array.has_key("a"));
    expect(rt, "2", array.contains(&number(2)));
    expect(rt, "no 3", !array.contains(&number(3)));
    expect(rt, "as_object", array.as_object().is_none());
    let len = array.as_array().map(|items| items.len());
    expect_eq(rt, "the length", len, Some(2));
    expect(rt, "entries", array.entries().next().is_none());
    let mut members = array.members();
    expect(rt, "the first", members.next() == Some(&number(1)));
    expect_eq(rt, "how many are left", members.len(), 1);
    expect(rt, "the last", members.next_back() == Some(&number(2)));
    expect(rt, "no more", members.next().is_none());
}

#[test]
fn looks_into_containers(rt: HostRuntime) -> Tested {
    look_into_an_object(&rt, &parse(rt.alloc(), "{\"a\":1,\"b\":2}")?);
    look_into_an_array(&rt, &parse(rt.alloc(), "[1,2]")?);
    Ok(())
}

/// Nothing is in this value or view, which is no container.
macro_rules! expect_nothing {
    ($rt:expr, $read:expr) => {
        expect($rt, "has_key", !$read.has_key("a"));
        expect($rt, "contains", !$read.contains(&JsonValue::Null));
        expect($rt, "as_object", $read.as_object().is_none());
        expect($rt, "as_array", $read.as_array().is_none());
        expect($rt, "members", $read.members().next().is_none());
        expect($rt, "entries", $read.entries().next().is_none());
        expect($rt, "at", $read.at("a").value().is_none());
        expect($rt, "at_index", $read.at_index(0).value().is_none());
    };
}

fn find_nothing(rt: &impl Tester, value: &JsonValue) {
    expect_nothing!(rt, value);
    expect(rt, "get", value.get("a").is_none());
    expect(rt, "contains", !value.contains(value));
    find_nothing_in_view(rt, value.as_view());
}

fn find_nothing_in_view(rt: &impl Tester, view: View<'_>) {
    expect_nothing!(rt, view);
}

const NO_CONTAINERS: &[&str] = &["null", "\"a\"", "1", "true"];

#[test]
fn finds_nothing_in_what_is_no_container(rt: HostRuntime) -> Tested {
    for text in NO_CONTAINERS {
        find_nothing(&rt, &parse(rt.alloc(), text)?);
    }
    find_nothing(&rt, &long(rt.alloc(), "a")?);
    Ok(())
}

/// A value, and whether it is an element of `[true,null,3.14,"foo"]`.
const CONTAINED: &[(&str, bool)] = &[
    ("true", true),
    ("null", true),
    ("3.14", true),
    ("\"foo\"", true),
    ("false", false),
    ("42", false),
    ("\"bar\"", false),
];

#[test]
fn contains_elements_of_each_kind(rt: HostRuntime) -> Tested {
    let array = parse(rt.alloc(), "[true,null,3.14,\"foo\"]")?;
    for (text, is_there) in CONTAINED {
        let value = parse(rt.alloc(), text)?;
        expect_eq(&rt, text, array.contains(&value), *is_there);
    }
    Ok(())
}

const NESTED: &str = "{\"list\":[null,\"world\",true,7],\"map\":{\"a\":null}}";

/// The elements of the list: their kinds, and what is read of them.
const ELEMENTS: &[(Kinds, Primitive<'static>)] = &[
    (NULL, (None, None, None)),
    (STRING, (Some("world"), None, None)),
    (BOOLEAN, (None, None, Some(true))),
    (NUMBER, (None, Some(7), None)),
];

fn look_at_elements(rt: &impl Tester, list: View<'_>) {
    for (index, (kinds, primitive)) in ELEMENTS.iter().enumerate() {
        let view = list.at_index(index);
        expect(rt, "value", view.value().is_some());
        expect_eq(rt, "the kind", kind!(view).0, *kinds);
        expect_of_view(rt, view, *primitive);
    }
    expect(rt, "past the end", list.at_index(4).value().is_none());
}

fn look_at_the_list(rt: &impl Tester, list: View<'_>) {
    expect(rt, "at", list.at("a").value().is_none());
    expect_eq(rt, "the kind", kind!(list), (ARRAY, false, 4));
    expect(rt, "contains", list.contains(&JsonValue::Boolean(true)));
    expect(rt, "contains", !list.contains(&JsonValue::Boolean(false)));
    let len = list.as_array().map(|items| items.len());
    expect_eq(rt, "as_array", len, Some(4));
    expect_eq(rt, "members", list.members().len(), 4);
}

fn look_at_the_map(rt: &impl Tester, map: View<'_>) {
    expect_eq(rt, "the kind", kind!(map), (OBJECT, false, 1));
    expect(rt, "has_key", map.has_key("a") && !map.has_key("b"));
    expect(rt, "at", map.at("a").is_null());
    let first = map.entries().next();
    expect(rt, "entries", matches!(first, Some(("a", JsonValue::Null))));
    let len = map.as_object().map(Object::len);
    expect_eq(rt, "as_object", len, Some(1));
}

#[test]
fn goes_from_view_to_view(rt: HostRuntime) -> Tested {
    let value = parse(rt.alloc(), NESTED)?;
    look_at_elements(&rt, value.at("list"));
    look_at_the_list(&rt, value.at("list"));
    look_at_the_map(&rt, value.as_view().at("map"));
    Ok(())
}

#[test]
fn reads_what_is_there_and_what_is_missing(rt: HostRuntime) -> Tested {
    let value = parse(rt.alloc(), "{\"list\":[null,\"world\"]}")?;
    let text = value.at("list").at_index(1).as_str();
    expect_eq(&rt, "as_str", text, Some("world"));
    let missing = value.at("this").at("does");
    expect(&rt, "is_null", missing.is_null());
    expect(&rt, "value", missing.value().is_none());
    Ok(())
}

/// A missing view reads as null.
#[test]
fn reads_what_is_missing_as_null(rt: HostRuntime) -> Tested {
    let value = parse(rt.alloc(), NESTED)?;
    for missing in [
        value.at("this"),
        value.at("this").at("does"),
        value.at("this").at_index(0),
        value.at("list").at_index(9),
    ] {
        expect(&rt, "value", missing.value().is_none());
        expect_eq(&rt, "the kind", kind!(missing), (NULL, true, 0));
        expect_of_view(&rt, missing, (None, None, None));
        expect(&rt, "eq_str", !missing.eq_str(""));
        find_nothing_in_view(&rt, missing);
    }
    Ok(())
}
