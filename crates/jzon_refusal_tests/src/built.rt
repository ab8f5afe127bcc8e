//! Values that are made of others.

use crate::common::*;
use jzon::IntoJson;
use jzon::short::Short;
use std::collections::{BTreeMap, HashMap};

#[derive(Clone, Copy)]
enum Built {
    From,
    Texts,
    Slice,
    Map,
    BorrowedMap,
    HashMap,
    OwnedHashMap,
    Value,
    Expression,
    Array,
    Object,
    Stringify,
    StringifyPretty,
    WrongType,
    Short,
}

fn texts(alloc: Global) -> Result<JsonValue> {
    vec![in alloc; LONG_TEXT, "", LONG_TEXT]?.into_json(alloc)
}

fn map(alloc: Global) -> Result<JsonValue> {
    let mut map = BTreeMap::new(alloc);
    map.insert(String::from_str(alloc, "a")?, Some(LONG_TEXT))?;
    map.into_json(alloc)
}

fn borrowed_map(alloc: Global) -> Result<JsonValue> {
    let mut map = BTreeMap::new(alloc);
    map.insert("a", LONG_TEXT)?;
    map.into_json(alloc)
}

fn hash_map(alloc: Global) -> Result<JsonValue> {
    let mut map = HashMap::new(alloc);
    map.insert("a", LONG_TEXT)?;
    map.into_json(alloc)
}

fn owned_hash_map(alloc: Global) -> Result<JsonValue> {
    let mut map = HashMap::new(alloc);
    map.insert(String::from_str(alloc, "a")?, Some(LONG_TEXT))?;
    map.into_json(alloc)
}

fn value_of_macro(alloc: Global) -> Result<JsonValue> {
    Ok(jzon::value!(alloc; [LONG_TEXT, null]))
}

fn array(alloc: Global) -> Result<JsonValue> {
    Ok(jzon::array![alloc; 1, LONG_TEXT, {}, Some(LONG_TEXT)])
}

/// Its last value has several tokens, as the last element of `array` has.
fn object(alloc: Global) -> Result<JsonValue> {
    Ok(jzon::object! {alloc; a: [1], LONG_KEY => true, b: Some(LONG_TEXT)})
}

fn wrong_type(alloc: Global) -> Result<JsonValue> {
    match Error::wrong_type(alloc, "Array")? {
        Error::WrongType(words) => Ok(JsonValue::String(words)),
        error => Err(error),
    }
}

fn value_of_expression(alloc: Global) -> Result<JsonValue> {
    Ok(jzon::value!(alloc; LONG_TEXT))
}

fn stringified(alloc: Global) -> Result<JsonValue> {
    let list = [Some(LONG_KEY), None];
    Ok(JsonValue::String(jzon::stringify(alloc, list.as_slice())?))
}

fn prettified(alloc: Global) -> Result<JsonValue> {
    let text = jzon::stringify_pretty(alloc, [LONG_KEY].as_slice(), 2)?;
    Ok(JsonValue::String(text))
}

fn short_text(alloc: Global) -> Result<JsonValue> {
    Ok(JsonValue::String(Short::from_slice("inline").into_string(alloc)?))
}

impl Built {
    fn build(self, alloc: Global) -> Result<JsonValue> {
        match self {
            Built::From => jzon::from(alloc, LONG_TEXT),
            Built::Texts => texts(alloc),
            Built::Slice => [LONG_TEXT, ""].as_slice().into_json(alloc),
            Built::Map => map(alloc),
            Built::BorrowedMap => borrowed_map(alloc),
            Built::HashMap => hash_map(alloc),
            Built::OwnedHashMap => owned_hash_map(alloc),
            Built::Value => value_of_macro(alloc),
            Built::Expression => value_of_expression(alloc),
            Built::Array => array(alloc),
            Built::Object => object(alloc),
            Built::Stringify => stringified(alloc),
            Built::StringifyPretty => prettified(alloc),
            Built::WrongType => wrong_type(alloc),
            Built::Short => short_text(alloc),
        }
    }
}

impl Call for Built {
    fn call(self, value: &mut JsonValue, alloc: Global) -> Result<()> {
        set(value, self.build(alloc))
    }
}

const MAPPED: &str = "{\"a\":\"abcdefghijklmnopqrstuvwxyz01234\"}";

const BUILT: &[Row<Built>] = rows! {
    (Built::From, "from", "null", "\"abcdefghijklmnopqrstuvwxyz01234\"", 1)
    (Built::Texts, "into_json of strings", "null",
        "[\"abcdefghijklmnopqrstuvwxyz01234\",\"\",\"abcdefghijklmnopqrstuvwxyz01234\"]", 4)
    (Built::Slice, "into_json of a slice", "null", "[\"abcdefghijklmnopqrstuvwxyz01234\",\"\"]", 2)
    (Built::Map, "into_json of a map", "null", MAPPED, 6)
    (Built::BorrowedMap, "into_json of a map of borrowed keys", "null", MAPPED, 5)
    (Built::HashMap, "into_json of a hash map", "null", MAPPED, 8)
    (Built::OwnedHashMap, "into_json of a hash map of owned keys", "null", MAPPED, 9)
    (Built::Value, "value!", "null", "[\"abcdefghijklmnopqrstuvwxyz01234\",null]", 2)
    (Built::Expression, "value! of an expression", "null", "\"abcdefghijklmnopqrstuvwxyz01234\"", 1)
    (Built::Array, "array!", "null",
        "[1,\"abcdefghijklmnopqrstuvwxyz01234\",{},\"abcdefghijklmnopqrstuvwxyz01234\"]", 3)
    (Built::Object, "object!", "null", "{\"a\":[1],\"0123456789abcdef0123456789abcdef01234567\":true,\
          \"b\":\"abcdefghijklmnopqrstuvwxyz01234\"}", 6)
    (Built::Stringify, "stringify", "null",
        "\"[\\\"0123456789abcdef0123456789abcdef01234567\\\",null]\"", 3)
    (Built::StringifyPretty, "stringify_pretty", "null",
        "\"[\\n  \\\"0123456789abcdef0123456789abcdef01234567\\\"\\n]\"", 3)
    (Built::WrongType, "wrong_type", "null", "\"Array\"", 1)
    (Built::Short, "Short::into_string", "null", "\"inline\"", 1)
};

#[test]
fn built_under_refusals(rt: HostRuntime) -> Tested {
    fail_each(&rt, rt.alloc(), BUILT)
}
