//! How much memory containers take: those after a long one, many of one length, small ones, and those
//! of a key that is repeated again and again.

use crate::common::*;
use jzon::object::Object;
use jzon_test_support::{joined, keys_by_hash, object_text};

/// The length of the large container.
const COUNT: u32 = 2000;

/// Four times the 48 bytes of each value, and for an object eight times, also the 48 of each key.
const MOST_OF_ARRAY: usize = 4 * 48 * 2000;

const MOST_OF_OBJECT: usize = 8 * 96 * 2000;

/// Twice the 48 bytes of each of the eight keys and eight values that the parser's stacks first have
/// room for.
const MOST_OF_TWO: usize = 2 * 96 * 8;

/// The 48 bytes of each value on the stack, which has room for 8, then 21, 42 and so on up to 1,344.
/// The outermost array and what is known of open containers take less than 8 values.
const STACK: usize = 48 * (2675 + 8);

/// The 48 bytes of each value in a thousand such arrays, and in the array of them.
const MOST_OF_ALIKE_ARRAYS: usize = STACK + 48 * 6 * 1000;

/// Each such object has five keys and five values, a box of less than the bytes of two, and its
/// place in the array of them. The stack of keys keeps its block, of eight.
const MOST_OF_ALIKE_OBJECTS: usize = STACK + 48 * 13 * 1000;

/// Such a string has 34 bytes, and its place in the array of them.
const MOST_OF_ALIKE_STRINGS: usize = STACK + 48 * 3 * 1000;

/// Such an object has one key, with its 33 bytes, and one value, a box, and its place in the array.
const MOST_OF_ALIKE_KEYS: usize = STACK + 48 * 7 * 1000;

/// The buffer of an escaped string doubles up to the string's 100,001 bytes.
const MOST_AFTER_A_STRING: usize = 4 * 100_001 + MOST_OF_ALIKE_STRINGS;

/// Eight times the 48 bytes of each of 20,000 values.
const MOST_AFTER_ELEMENTS: usize = 8 * 48 * 20000;

/// What is parsed, the parts of its text, and the most bytes that this requests. The containers after
/// a long one have no room for as many. Each of many containers requests little more than what it
/// holds, a small one requests little, and an escape nothing for the text after its string.
const PARSED: &[(&str, &[(&str, usize)], usize)] = rows! {
    ("parse of arrays",
        &[("[[0", 1), (",0", 1999), ("],", 1), ("[", 500), ("]", 501)], MOST_OF_ARRAY)
    ("parse of alike arrays",
        &[("[[", 1), ("[0,1,2,3,4],", 999), ("[0,1,2,3,4]],1]", 1)], MOST_OF_ALIKE_ARRAYS)
    ("parse of alike objects",
        &[("[[", 1), ("{\"a\":0,\"b\":1,\"c\":2,\"d\":3,\"e\":4},", 999),
            ("{\"a\":0,\"b\":1,\"c\":2,\"d\":3,\"e\":4}],1]", 1)], MOST_OF_ALIKE_OBJECTS)
    ("parse of alike strings",
        &[("[[", 1), ("\"a text of more than thirty bytes\",", 999), ("0],1]", 1)],
        MOST_OF_ALIKE_STRINGS)
    ("parse of alike long keys",
        &[("[[", 1), ("{\"0123456789abcdef0123456789abcdef!\":0},", 999), ("0],1]", 1)],
        MOST_OF_ALIKE_KEYS)
    ("parse of alike escaped strings after a long one",
        &[("[\"\\n", 1), ("x", 100000), ("\",[", 1),
            ("\"\\nabcdefghijklmnopqrstuvwxyz0123\",", 999), ("0]]", 1)], MOST_AFTER_A_STRING)
    ("parse of long arrays after many elements",
        &[("[[0", 1), (",0", 19999), (",[0", 1), (",0", 1099), ("],[0", 1), (",0", 1099),
            ("],[0", 1), (",0", 1099), ("],[0", 1), (",0", 1099), ("],[0", 1), (",0", 1099),
            ("],[0", 1), (",0", 1099), ("]],1]", 1)], MOST_AFTER_ELEMENTS)
    ("parse of two elements", &[("[1,2]", 1)], MOST_OF_TWO)
    ("parse of two members", &[("{\"a\":1,\"b\":2}", 1)], MOST_OF_TWO)
    ("parse of an escape in a long text",
        &[("[\"\\n\",", 1), (" ", 100000), ("1]", 1)], MOST_OF_TWO)
};

/// An object of two: a large one, and 501 in one another.
fn objects(alloc: Global) -> Result<String> {
    let keys = keys_by_hash(alloc, COUNT)?;
    let large = object_text(alloc, keys.as_slice())?;
    let mut text = joined(alloc, &[("{\"a\":", 1), (large.as_str(), 1)])?;
    let deep = [(",\"b\":", 1), ("{\"c\":", 500), ("{}", 1), ("}", 501)];
    text.push_str(joined(alloc, &deep)?.as_str())?;
    Ok(text)
}

fn expect_parsed(
    rt: &(impl Eprint + Abort),
    alloc: Global,
    name: &str,
    text: &str,
    most: usize,
) -> Tested {
    let mut refusals = Refusals::new(alloc);
    refusals.open();
    let value = parse(alloc, text)?;
    refusals.expect_within(rt, name, most)?;
    expect(rt, name, value.len() == 2);
    Ok(())
}

#[test]
fn parse_counted(rt: HostRuntime) -> Tested {
    let alloc = rt.alloc();
    for (name, parts, most) in PARSED {
        expect_parsed(&rt, alloc, name, joined(alloc, parts)?.as_str(), *most)?;
    }
    let text = objects(alloc)?;
    expect_parsed(
        &rt,
        alloc,
        "parse of objects",
        text.as_str(),
        MOST_OF_OBJECT,
    )
}

/// How often a key is repeated.
const REPEATED: usize = 100000;

/// Three times the 48 bytes of each key and value: the room of a stack is up to twice its values, and
/// an object takes its own out of it.
const MOST_OF_REPEATED: usize = 3 * 96 * (REPEATED + 1);

/// The entries of a key that is repeated again and again are gathered, and merged at the object's end.
#[test]
fn repeated_keys_counted(rt: HostRuntime) -> Tested {
    let alloc = rt.alloc();
    for (name, first, last) in [
        ("parse of a repeated key", "[{\"a\":0", "},1]"),
        ("parse of a repeated key after a value", "[1,{\"a\":0", "}]"),
    ] {
        let text = joined(alloc, &[(first, 1), (",\"a\":0", REPEATED), (last, 1)])?;
        let mut refusals = Refusals::new(alloc);
        refusals.open();
        let value = parse(alloc, text.as_str())?;
        refusals.expect_at_most(&rt, name, MOST_OF_REPEATED)?;
        expect(&rt, name, value.len() == 2);
    }
    Ok(())
}

/// The pairs of a key that is repeated again and again are gathered, and merged at the end.
#[test]
fn repeated_pairs_counted(rt: HostRuntime) -> Tested {
    let alloc = rt.alloc();
    let mut refusals = Refusals::new(alloc);
    refusals.open();
    let pairs = (0..100000u32).map(|number| ("a", number));
    let object = Object::from_pairs(alloc, pairs)?;
    refusals.expect_at_most(&rt, "from_pairs of a repeated key", MOST_OF_REPEATED)?;
    expect(&rt, "the length", object.len() == 1);
    Ok(())
}
