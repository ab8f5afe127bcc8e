//! Values that macros write.

use crate::common::{expect, expect_dump};
use jzon::{Error, JsonValue, Result, parse};
use jzon_test_support::{Unconvertible, joined, keys_by_hash, object_text};
use std::alloc::Global;
use std::process::Abort;
use std::test::Fail;

fn containers(alloc: Global) -> Result<JsonValue> {
    Ok(
        jzon::array![alloc; {}, {a: null}, [JsonValue::Null,], jzon::array![alloc;], jzon::value!(alloc; null), jzon::Null],
    )
}

/// An object with each form of a key, one with a key twice, and arrays and objects of nothing.
fn asked(alloc: Global, key: &str) -> Result<JsonValue> {
    Ok(jzon::array![alloc;
        jzon::object!{alloc; foo: false, "bar": null, [key]: 42, list: [null, "world", true],},
        jzon::object!{alloc; "a" => 1, "a" => 2},
        jzon::array![alloc;], jzon::object!{alloc;}, [], {},
    ])
}

fn double(number: u8) -> u8 {
    number.saturating_mul(2)
}

/// Elements that are expressions of several tokens.
fn elements(alloc: Global, one: u8) -> Result<JsonValue> {
    Ok(jzon::array![alloc; -1, 1 + 2, Some(one), double(one), !false, [-2, double(one)], {a: -3}])
}

/// Members that are such expressions, and keys that are.
fn members(alloc: Global, one: u8, key: &str) -> Result<JsonValue> {
    Ok(jzon::object! {alloc; a: -1, "b": 1 + 2, [key]: Some(one), key.trim() => double(one), e: -4})
}

/// Such a member last, with a comma after it.
fn last_members(alloc: Global, one: u8, key: &str) -> Result<JsonValue> {
    Ok(
        jzon::object! {alloc; [key.trim()]: {x: -1, y: [-2, {"z": double(one),}]}, "l" => Some("m"),},
    )
}

/// Each form of `value!` but of an expression.
fn forms(alloc: Global, one: u8) -> Result<JsonValue> {
    Ok(jzon::array![alloc;
        jzon::value!(alloc; null), jzon::value!(alloc; []), jzon::value!(alloc; [-1, double(one),]),
        jzon::value!(alloc; {}), jzon::value!(alloc; {a: -1, b: {c: Some(one)},}),
    ])
}

/// `value!` of expressions of one token and of several.
fn values(alloc: Global, one: u8) -> Result<JsonValue> {
    Ok(jzon::array![alloc;
        jzon::value!(alloc; one), jzon::value!(alloc; true), jzon::value!(alloc; -1), jzon::value!(alloc; 1 + 2),
        jzon::value!(alloc; Some("x")), jzon::value!(alloc; double(one)), -5,
    ])
}

fn basic(alloc: Global) -> Result<JsonValue> {
    Ok(jzon::object! {alloc; a: 1, b: true, c: false, d: null, e: 2})
}

fn listed(alloc: Global) -> Result<JsonValue> {
    Ok(jzon::object! {alloc; a: 1, f: [1, 2, 3, false, true, [], {}]})
}

fn deep(alloc: Global) -> Result<JsonValue> {
    Ok(jzon::object! {alloc; a: 1, b: {c: 2, d: {h: [{z: 1}, {y: 2, x: [{}, {}]}]}, j: []}})
}

fn array(alloc: Global) -> Result<JsonValue> {
    Ok(jzon::array![alloc; 1, 2, 3, false, true, [], {}])
}

/// Each of these values, by its position in `BUILT`.
fn built(alloc: Global, position: usize) -> Result<JsonValue> {
    match position {
        0 => containers(alloc),
        1 => asked(alloc, "z"),
        2 => elements(alloc, 1),
        3 => members(alloc, 1, " z "),
        4 => last_members(alloc, 1, " z "),
        5 => forms(alloc, 1),
        6 => values(alloc, 1),
        7 => basic(alloc),
        8 => listed(alloc),
        9 => deep(alloc),
        _ => array(alloc),
    }
}

/// What these values dump, in this order.
const BUILT: &[&str] = &[
    "[{},{\"a\":null},[null],[],null,null]",
    "[{\"foo\":false,\"bar\":null,\"z\":42,\"list\":[null,\"world\",true]},{\"a\":2},[],{},[],{}]",
    "[-1,3,1,2,true,[-2,2],{\"a\":-3}]",
    "{\"a\":-1,\"b\":3,\" z \":1,\"z\":2,\"e\":-4}",
    "{\"z\":{\"x\":-1,\"y\":[-2,{\"z\":2}]},\"l\":\"m\"}",
    "[null,[],[-1,2],{},{\"a\":-1,\"b\":{\"c\":1}}]",
    "[1,true,-1,3,\"x\",2,-5]",
    "{\"a\":1,\"b\":true,\"c\":false,\"d\":null,\"e\":2}",
    "{\"a\":1,\"f\":[1,2,3,false,true,[],{}]}",
    "{\"a\":1,\"b\":{\"c\":2,\"d\":{\"h\":[{\"z\":1},{\"y\":2,\"x\":[{},{}]}]},\"j\":[]}}",
    "[1,2,3,false,true,[],{}]",
];

/// Each value dumps its text, and is what this text means.
#[test]
fn builds_expressions(rt: HostRuntime) -> std::result::Result<(), Fail> {
    let alloc = rt.alloc();
    for (position, text) in BUILT.iter().enumerate() {
        let value = built(alloc, position)?;
        expect_dump(&rt, alloc, &value, text);
        expect(&rt, text, parse(alloc, text)? == value);
    }
    Ok(())
}

/// The number of the call, counted from 1.
fn next(calls: &mut u8) -> u8 {
    *calls = calls.saturating_add(1);
    *calls
}

/// The number of the call as a key.
fn next_key(calls: &mut u8) -> &'static str {
    match next(calls) {
        1 => "1",
        3 => "3",
        5 => "5",
        7 => "7",
        _ => "another",
    }
}

/// Keys and values that are counted together, values of one token and of several.
fn with_counted_entries(alloc: Global, calls: &mut u8) -> Result<JsonValue> {
    Ok(jzon::object! {alloc;
        [next_key(calls)]: (next(calls)), [next_key(calls)]: next(calls),
        next_key(calls) => [next(calls)], next_key(calls) => next(calls),
    })
}

/// Each expression is evaluated once, and a key before its value.
#[test]
fn evaluates_keys_before_values(rt: HostRuntime) -> std::result::Result<(), Fail> {
    let mut calls = 0;
    let value = with_counted_entries(rt.alloc(), &mut calls)?;
    expect(&rt, "the calls", calls == 8);
    let text = "{\"1\":2,\"3\":4,\"5\":[6],\"7\":8}";
    expect_dump(&rt, rt.alloc(), &value, text);
    Ok(())
}

/// The allocator, and one call more.
fn counted_alloc(calls: &mut usize, alloc: Global) -> Global {
    *calls = calls.saturating_add(1);
    alloc
}

/// Each form of each macro, with an allocator that is counted.
fn with_counted_allocs(alloc: Global, calls: &mut usize) -> std::result::Result<JsonValue, Fail> {
    Ok(jzon::array![alloc;
        jzon::array![counted_alloc(calls, alloc); 1, -2, [3], {a: 4}],
        jzon::object!{counted_alloc(calls, alloc); a: 1, "b" => -2, c: [3], d: {}},
        jzon::value!(counted_alloc(calls, alloc); [1, -2]),
        jzon::value!(counted_alloc(calls, alloc); {a: 1, "b" => -2}),
        jzon::value!(counted_alloc(calls, alloc); -5),
    ])
}

/// The allocator is evaluated once too, and the error may be another one that is `From<Error>`.
#[test]
fn evaluates_allocators_once(rt: HostRuntime) -> std::result::Result<(), Fail> {
    let mut calls = 0;
    let values = with_counted_allocs(rt.alloc(), &mut calls)?;
    let text =
        "[[1,-2,[3],{\"a\":4}],{\"a\":1,\"b\":-2,\"c\":[3],\"d\":{}},[1,-2],{\"a\":1,\"b\":-2},-5]";
    expect(&rt, "the calls", calls == 5);
    expect_dump(&rt, rt.alloc(), &values, text);
    Ok(())
}

/// Elements and values that are counted, of one token and of several.
fn with_counted_values(alloc: Global, calls: &mut u8) -> Result<JsonValue> {
    Ok(jzon::array![alloc;
        next(calls), (next(calls)), [next(calls), (next(calls))], {a: next(calls), "b" => (next(calls))},
        jzon::object!{alloc; c: next(calls), "d" => (next(calls))}, jzon::value!(alloc; next(calls)),
    ])
}

/// In order, and each once.
#[test]
fn evaluates_values_once(rt: HostRuntime) -> std::result::Result<(), Fail> {
    let mut calls = 0;
    let value = with_counted_values(rt.alloc(), &mut calls)?;
    let text = "[1,2,[3,4],{\"a\":5,\"b\":6},{\"c\":7,\"d\":8},9]";
    expect(&rt, "the calls", calls == 9);
    expect_dump(&rt, rt.alloc(), &value, text);
    Ok(())
}

/// One of seven uses of the macros: an expression of one token or of several, whose conversion
/// fails, as an element, as the value of an entry, and alone.
fn build_unconvertible(alloc: Global, number: u8) -> Result<JsonValue> {
    let item = Unconvertible;
    Ok(match number {
        0 => jzon::array![alloc; 1, item, 2],
        1 => jzon::array![alloc; 1, Some(item), 2],
        2 => jzon::object! {alloc; a: item, b: 1},
        3 => jzon::object! {alloc; a: Some(item), b: 1},
        4 => jzon::object! {alloc; a: [1], "b" => Some(item)},
        5 => jzon::value!(alloc; item),
        _ => jzon::value!(alloc; [[Some(item)]]),
    })
}

/// The error is propagated.
#[test]
fn fails_where_a_conversion_fails(rt: HostRuntime) {
    for number in 0..7 {
        let outcome = build_unconvertible(rt.alloc(), number);
        expect(&rt, "the error", matches!(outcome, Err(Error::OutOfMemory)));
    }
}

/// The value by `value!`, of one token and of several, as an element, and as the value of an entry.
fn held(alloc: Global, large: &JsonValue) -> Result<JsonValue> {
    let whole = large.clone(alloc)?;
    let first = large.clone(alloc)?;
    let named = large.clone(alloc)?;
    Ok(jzon::array![alloc;
        jzon::value!(alloc; whole), jzon::value!(alloc; large.clone(alloc)?),
        jzon::value!(alloc; [first, large.clone(alloc)?]),
        jzon::value!(alloc; {a: named, "b" => large.clone(alloc)?}),
    ])
}

/// The value of this text is held.
fn expect_held(rt: &impl Abort, alloc: Global, text: &str) -> std::result::Result<(), Fail> {
    let value = held(alloc, &parse(alloc, text)?)?;
    let dump = format!(in alloc; "[{text},{text},[{text},{text}],{{\"a\":{text},\"b\":{text}}}]")?;
    expect_dump(rt, alloc, &value, dump.as_str());
    Ok(())
}

/// More elements, entries and bytes than 16 bits can count.
#[test]
fn builds_large_values(rt: HostRuntime) -> std::result::Result<(), Fail> {
    let alloc = rt.alloc();
    let array = joined(alloc, &[("[0", 1), (",0", 70000), ("]", 1)])?;
    expect_held(&rt, alloc, array.as_str())?;
    let object = object_text(alloc, keys_by_hash(alloc, 70000)?.as_slice())?;
    expect_held(&rt, alloc, object.as_str())?;
    let string = joined(alloc, &[("\"", 1), ("plain", 40000), ("\"", 1)])?;
    expect_held(&rt, alloc, string.as_str())
}
