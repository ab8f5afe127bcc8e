//! Conversions into values: by `into_json` and `from_pairs`, and by `From`, which allocates nothing.

use crate::common::{Tested, Tester, expect, expect_converted, expect_dump, expect_eq};
use jzon::number::{NAN, Number};
use jzon::object::Object;
use jzon::{Error, IntoJson, JsonValue, Result};
use std::alloc::{AllocError, Global};
use std::cell::Cell;
use std::collections::{BTreeMap, HashMap};
use std::process::Abort;

const THIRTY: &str = "abcdefghijklmnopqrstuvwxyz0123";

const THIRTY_ONE: &str = "abcdefghijklmnopqrstuvwxyz01234";

#[test]
fn converts_integers(rt: HostRuntime) {
    let alloc = rt.alloc();
    expect_converted(&rt, alloc, 255u8, "255");
    expect_converted(&rt, alloc, 65535u16, "65535");
    expect_converted(&rt, alloc, 4294967295u32, "4294967295");
    expect_converted(&rt, alloc, 18446744073709551615u64, "18446744073709551615");
    expect_converted(&rt, alloc, usize::MAX, "18446744073709551615");
    expect_converted(&rt, alloc, -128i8, "-128");
    expect_converted(&rt, alloc, -32768i16, "-32768");
    expect_converted(&rt, alloc, -2147483648i32, "-2147483648");
    expect_converted(&rt, alloc, i64::MIN, "-9223372036854775808");
    expect_converted(&rt, alloc, isize::MAX, "9223372036854775807");
}

#[test]
fn converts_without_allocating(rt: HostRuntime) {
    let alloc = rt.alloc();
    expect_converted(&rt, alloc, true, "true");
    let number = Number::from_parts_unchecked(true, 150, -2);
    expect_converted(&rt, alloc, number, "1.50");
    expect_converted(&rt, alloc, NAN, "null");
    expect_converted(&rt, alloc, Object::new(alloc), "{}");
    expect_converted(&rt, alloc, JsonValue::Boolean(false), "false");
}

/// It is this string, stored inline if `is_short`.
fn expect_kept(rt: &impl Abort, made: Result<JsonValue>, is_short: bool, text: &str) {
    match made {
        Ok(value) => {
            expect_eq(rt, text, matches!(value, JsonValue::Short(_)), is_short);
            expect_eq(rt, text, value.as_str(), Some(text));
        }
        Err(_) => expect(rt, text, false),
    }
}

#[test]
fn keeps_short_strings_inline(rt: HostRuntime) -> Tested {
    let alloc = rt.alloc();
    expect_kept(&rt, THIRTY.into_json(alloc), true, THIRTY);
    expect_kept(&rt, THIRTY_ONE.into_json(alloc), false, THIRTY_ONE);
    let text = String::from_str(alloc, "a")?;
    expect_kept(&rt, text.into_json(alloc), false, "a");
    Ok(())
}

#[test]
fn converts_lists(rt: HostRuntime) -> Tested {
    let alloc = rt.alloc();
    expect_converted(&rt, alloc, None::<u8>, "null");
    expect_converted(&rt, alloc, Some("a"), "\"a\"");
    expect_converted(&rt, alloc, Vec::<u8>::new(alloc), "[]");
    let nothing: &[u8] = &[];
    expect_converted(&rt, alloc, nothing, "[]");
    let texts = vec![in alloc; THIRTY_ONE, "", THIRTY_ONE]?;
    let text = "[\"abcdefghijklmnopqrstuvwxyz01234\",\"\",\"abcdefghijklmnopqrstuvwxyz01234\"]";
    expect_converted(&rt, alloc, texts.as_slice(), text);
    expect_converted(&rt, alloc, texts, text);
    Ok(())
}

#[test]
fn converts_maps(rt: HostRuntime) -> Tested {
    let alloc = rt.alloc();
    expect_converted(&rt, alloc, BTreeMap::<&str, u8>::new(alloc), "{}");
    expect_converted(&rt, alloc, HashMap::<String, u8>::new(alloc), "{}");
    let map = mapped(alloc)?;
    expect_converted(&rt, alloc, map, "{\"age\":30,\"name\":\"Maciej\"}");
    expect_converted(&rt, alloc, owned_map(alloc)?, "{\"a\":1,\"b\":2}");
    Ok(())
}

fn mapped(alloc: Global) -> Result<BTreeMap<&'static str, JsonValue>> {
    let mut map = BTreeMap::new(alloc);
    map.insert("name", "Maciej".into_json(alloc)?)?;
    map.insert("age", 30u8.into_json(alloc)?)?;
    Ok(map)
}

fn owned_map(alloc: Global) -> Result<BTreeMap<String, u8>> {
    let mut map = BTreeMap::new(alloc);
    map.insert(String::from_str(alloc, "b")?, 2u8)?;
    map.insert(String::from_str(alloc, "a")?, 1u8)?;
    Ok(map)
}

#[test]
fn converts_hash_maps(rt: HostRuntime) -> Tested {
    let alloc = rt.alloc();
    let mut map = HashMap::new(alloc);
    map.insert("b", Some(2u8))?;
    map.insert("a", None)?;
    let value = map.into_json(alloc)?;
    expect_eq(&rt, "the length", value.len(), 2);
    expect(&rt, "a", value.has_key("a") && value.at("a").is_null());
    expect(&rt, "b", value.at("b").eq_u64(2));
    let mut map = HashMap::new(alloc);
    map.insert(String::from_str(alloc, THIRTY_ONE)?, true)?;
    let text = "{\"abcdefghijklmnopqrstuvwxyz01234\":true}";
    expect_converted(&rt, alloc, map, text);
    Ok(())
}

/// The object was made, and converts into the value of this text.
fn expect_made(rt: &impl Abort, alloc: Global, made: Result<Object>, text: &str) {
    match made {
        Ok(object) => expect_converted(rt, alloc, object, text),
        Err(_) => expect(rt, text, false),
    }
}

#[test]
fn puts_entries(rt: HostRuntime) -> Tested {
    let alloc = rt.alloc();
    let pairs = [("a", 1u8), ("b", 2), ("a", 3), ("c", 4), ("b", 5)];
    let object = Object::from_pairs(alloc, pairs.into_iter());
    expect_made(&rt, alloc, object, "{\"a\":3,\"b\":5,\"c\":4}");
    // Of these the iterator doesn't know how many there are.
    let kept = pairs.into_iter().filter(|pair| pair.0 != "b");
    let object = Object::from_pairs(alloc, kept);
    expect_made(&rt, alloc, object, "{\"a\":3,\"c\":4}");
    let items = vec![in alloc; "x", "y"]?;
    let object = Object::from_pairs(alloc, items.iter().copied().zip(0u64..));
    expect_made(&rt, alloc, object, "{\"x\":0,\"y\":1}");
    Ok(())
}

/// How often values of a user's type are converted and cloned, and which conversion fails.
#[derive(Drop)]
struct Counts {
    conversions: Cell<u64>,
    clones: Cell<u64>,
    fails_after: u64,
}

fn fresh_counts(fails_after: u64) -> Counts {
    Counts {
        conversions: Cell::new(0),
        clones: Cell::new(0),
        fails_after,
    }
}

/// Becomes the number of conversions before its own, unless its own is the one that fails.
#[derive(Drop)]
struct Counted<'a>(&'a Counts);

impl Clone for Counted<'_> {
    fn clone(&self) -> std::result::Result<Self, AllocError> {
        let clones = &self.0.clones;
        clones.set(clones.get().saturating_add(1));
        Ok(Counted(self.0))
    }
}

impl IntoJson for Counted<'_> {
    fn into_json(self, alloc: Global) -> Result<JsonValue> {
        let count = self.0.conversions.get();
        self.0.conversions.set(count.saturating_add(1));
        if count == self.0.fails_after {
            return Err(Error::OutOfMemory);
        }
        count.into_json(alloc)
    }
}

/// Elements and entries are converted in their order, each once. The elements of a slice are cloned
/// once each, and those of a list aren't.
#[test]
fn converts_in_order(rt: HostRuntime) -> Tested {
    let counts = fresh_counts(u64::MAX);
    expect_lists_in_order(&rt, &counts)?;
    expect_objects_in_order(&rt, &counts)?;
    expect_eq(&rt, "the conversions", counts.conversions.get(), 11);
    Ok(())
}

fn expect_lists_in_order(rt: &impl Tester, counts: &Counts) -> Tested {
    let alloc = rt.alloc();
    let list = vec![in alloc; Counted(counts), Counted(counts), Counted(counts)]?;
    expect_converted(rt, alloc, list.as_slice(), "[0,1,2]");
    expect_eq(rt, "of a slice", counts.clones.get(), 3);
    expect_converted(rt, alloc, list, "[3,4,5]");
    expect_eq(rt, "of a list", counts.clones.get(), 3);
    Ok(())
}

fn expect_objects_in_order(rt: &impl Tester, counts: &Counts) -> Tested {
    let alloc = rt.alloc();
    let pairs = ["b", "a", "b"]
        .into_iter()
        .map(|key| (key, Counted(counts)));
    let object = Object::from_pairs(alloc, pairs);
    expect_made(rt, alloc, object, "{\"b\":8,\"a\":7}");
    let mut map = BTreeMap::new(alloc);
    map.insert("b", Counted(counts))?;
    map.insert("a", Counted(counts))?;
    expect_converted(rt, alloc, map, "{\"a\":9,\"b\":10}");
    Ok(())
}

/// The second of three conversions failed, and there is no third.
fn expect_stopped<T: Drop>(rt: &impl Abort, outcome: Result<T>, counts: &Counts) {
    expect(rt, "the error", matches!(outcome, Err(Error::OutOfMemory)));
    expect_eq(rt, "the conversions", counts.conversions.get(), 2);
    counts.conversions.set(0);
}

#[test]
fn converts_until_one_fails(rt: HostRuntime) -> Tested {
    let alloc = rt.alloc();
    let counts = fresh_counts(1);
    let list = vec![in alloc; Counted(&counts), Counted(&counts), Counted(&counts)]?;
    expect_stopped(&rt, list.as_slice().into_json(alloc), &counts);
    expect_stopped(&rt, list.into_json(alloc), &counts);
    expect_stopped_maps(&rt, &counts)?;
    let pairs = KEYS.iter().map(|key| (*key, Counted(&counts)));
    expect_stopped(&rt, Object::from_pairs(alloc, pairs), &counts);
    Ok(())
}

const KEYS: &[&str] = &["a", "b", "c"];

fn expect_stopped_maps(rt: &impl Tester, counts: &Counts) -> Tested {
    let alloc = rt.alloc();
    let mut map = BTreeMap::new(alloc);
    for key in KEYS {
        map.insert(*key, Counted(counts))?;
    }
    expect_stopped(rt, map.into_json(alloc), counts);
    let mut map = HashMap::new(alloc);
    for key in KEYS {
        map.insert(String::from_str(alloc, key)?, Counted(counts))?;
    }
    expect_stopped(rt, map.into_json(alloc), counts);
    Ok(())
}

#[test]
fn makes_integers_by_from(rt: HostRuntime) {
    expect(&rt, "u8", JsonValue::from(7u8).eq_u64(7));
    expect(&rt, "u16", JsonValue::from(7u16).eq_u64(7));
    expect(&rt, "u32", JsonValue::from(7u32).eq_u64(7));
    expect(&rt, "u64", JsonValue::from(u64::MAX).eq_u64(u64::MAX));
    expect(&rt, "usize", JsonValue::from(7usize).eq_u64(7));
    expect(&rt, "i8", JsonValue::from(-7i8).eq_i64(-7));
    expect(&rt, "i16", JsonValue::from(-7i16).eq_i64(-7));
    expect(&rt, "i32", JsonValue::from(-7i32).eq_i64(-7));
    expect(&rt, "i64", JsonValue::from(i64::MIN).eq_i64(i64::MIN));
    expect(&rt, "isize", JsonValue::from(-7isize).eq_i64(-7));
}

#[test]
fn makes_what_is_no_integer_by_from(rt: HostRuntime) -> Tested {
    let alloc = rt.alloc();
    let value: JsonValue = true.into();
    expect(&rt, "true", value.eq_bool(true));
    expect(&rt, "NaN", JsonValue::from(NAN).is_number());
    let number = Number::from_parts_unchecked(true, 150, -2);
    expect_dump(&rt, &number.into(), "1.50");
    let text = JsonValue::from(String::from_str(alloc, "a")?);
    let is_kept = matches!(text, JsonValue::String(_)) && text.eq_str("a");
    expect(&rt, "a", is_kept);
    expect_dump(&rt, &Object::new(alloc).into(), "{}");
    Ok(())
}
