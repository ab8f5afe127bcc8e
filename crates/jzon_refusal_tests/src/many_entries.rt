//! Objects of many sizes. They are made past the counts at which an index begins, another run of it,
//! the join of runs, and the search for repeated keys; or each is read, loses members, and is dropped.

use crate::changed::parse_strictly;
use crate::common::*;
use jzon::IntoJson;
use jzon::object::Object;
use jzon_test_support::{keys_by_hash, keys_of_one_hash, object_text};
use std::collections::{BTreeMap, HashMap};

/// How an object of keys is made, or read from a text that has this value at each key.
#[derive(Clone, Copy)]
enum Grown {
    Insert,
    AtMut,
    Reserve,
    Clone,
    Repeat,
    Pairs,
    Collect,
    Map,
    HashMap,
    Parse(&'static str),
    ParseStrictly(&'static str),
    ParseOneHash,
}

/// `count` keys, of which about twenty are too long to be stored inline.
fn keys_of(alloc: Global, count: u32) -> Result<Vec<String>> {
    let step = (count / 20).max(1);
    let mut keys = Vec::new(alloc);
    for number in 0..count {
        let end = if number % step == 0 {
            ", more than 32 bytes with its words"
        } else {
            ""
        };
        keys.push(format!(in alloc; "{number}{end}")?)?;
    }
    Ok(keys)
}

/// The text for a key: a long one for a long key.
fn text_for(key: &str) -> &'static str {
    if key.len() > 32 { LONG_TEXT } else { "" }
}

fn inserted(call: Grown, alloc: Global, keys: &[String], mut object: Object) -> Result<Object> {
    for key in keys {
        let item = text_for(key.as_str()).into_json(alloc)?;
        match call {
            Grown::AtMut => *object.at_mut(alloc, key.as_str())? = item,
            _ => object.insert(alloc, key.as_str(), item)?,
        }
    }
    Ok(object)
}

/// Of each key twice.
fn repeated(alloc: Global, keys: &[String]) -> Result<Object> {
    let names = keys.iter().chain(keys.iter()).map(|key| key.as_str());
    let texts = keys
        .iter()
        .chain(keys.iter())
        .map(|key| text_for(key.as_str()));
    Object::from_pairs(alloc, names.zip(texts))
}

fn owned_text(alloc: Global, key: &str) -> Result<String> {
    Ok(String::from_str(alloc, text_for(key))?)
}

fn map(alloc: Global, keys: &[String]) -> Result<usize> {
    Ok(mapped!(BTreeMap, alloc, key in keys, key.clone(), owned_text(alloc, key)).len())
}

fn hash_map(alloc: Global, keys: &[String]) -> Result<usize> {
    Ok(mapped!(HashMap, alloc, key in keys, key.clone(), owned_text(alloc, key)).len())
}

/// Reads an object, removes its keys of one digit, and drops the rest. Returns how many were left.
fn reduced(alloc: Global, text: &str, is_strict: bool) -> Result<usize> {
    let value = if is_strict {
        parse_strictly(alloc, text)?
    } else {
        parse(alloc, text)?
    };
    match value {
        JsonValue::Object(object) => {
            let mut object = object;
            object.retain(|key, _| key.len() != 1);
            Ok(object.len())
        }
        _ => Err(Error::UnexpectedEndOfJson),
    }
}

/// The same of the one text in a list.
fn reduced_one(alloc: Global, texts: &[String], is_strict: bool) -> Result<usize> {
    match texts.first() {
        Some(text) => reduced(alloc, text.as_str(), is_strict),
        None => Err(Error::UnexpectedEndOfJson),
    }
}

impl Grown {
    fn make(self, alloc: Global, keys: &[String]) -> Result<Object> {
        let texts = keys.iter().map(|key| key.as_str());
        let pairs = keys.iter().map(|key| key.as_str()).zip(texts);
        match self {
            Grown::Insert | Grown::AtMut => inserted(self, alloc, keys, Object::new(alloc)),
            Grown::Reserve => inserted(self, alloc, keys, Object::with_capacity(alloc, 100)?),
            Grown::Clone => inserted(self, alloc, keys, Object::new(alloc))?.clone(alloc),
            Grown::Collect => Ok(pairs.collect(alloc)?),
            Grown::Repeat => repeated(alloc, keys),
            _ => Object::from_pairs(alloc, pairs),
        }
    }

    /// The keys, or the text of an object of keys and this value.
    fn inputs(self, alloc: Global, count: u32) -> Result<Vec<String>> {
        match self {
            Grown::Parse(value) | Grown::ParseStrictly(value) => {
                let keys = keys_by_hash(alloc, count)?;
                let text = object_text(alloc, keys.as_slice())?.replace(alloc, "null", value)?;
                Ok(vec![in alloc; text]?)
            }
            Grown::ParseOneHash => {
                let keys = keys_of_one_hash(alloc, count as usize)?;
                Ok(vec![in alloc; object_text(alloc, keys.as_slice())?]?)
            }
            _ => keys_of(alloc, count),
        }
    }

    /// How many entries were made, or are left.
    fn call(self, alloc: Global, keys: &[String]) -> Result<usize> {
        match self {
            Grown::Parse(_) => reduced_one(alloc, keys, false),
            Grown::ParseStrictly(_) | Grown::ParseOneHash => reduced_one(alloc, keys, true),
            Grown::Map => map(alloc, keys),
            Grown::HashMap => hash_map(alloc, keys),
            _ => Ok(self.make(alloc, keys)?.len()),
        }
    }
}

/// A way, its name, the number of keys, that of the entries in the end, and that of allocations.
type GrownRow = (Grown, &'static str, u32, usize, usize);

/// Runs each way with its allocations failing in turn.
fn fail_each_of(rt: &(impl Eprint + Abort), alloc: Global, rows: &[GrownRow]) -> Tested {
    for (call, name, count, entries, allocations) in rows {
        let inputs = call.inputs(alloc, *count)?;
        let mut refusals = Refusals::new(alloc);
        for _ in 0..RUNS_MAX {
            refusals.open();
            refusals.begin();
            let outcome = call.call(alloc, &inputs);
            let has_failed = refusals.has_failed();
            refusals.close();
            if !has_failed {
                expect(rt, name, outcome == Ok(*entries));
                break;
            }
            expect(rt, name, outcome == Err(Error::OutOfMemory));
        }
        refusals.report(rt, name, *allocations)?;
    }
    Ok(())
}

const GROWN: &[GrownRow] = rows! {
    (Grown::Insert, "insert of 34 keys", 34, 34, 79)
    (Grown::Insert, "insert of 1,100 keys", 1100, 1100, 77)
    (Grown::AtMut, "at_mut of 1,100 keys", 1100, 1100, 77)
    (Grown::Reserve, "insert of 200 keys, with room for 100", 200, 200, 48)
    (Grown::Clone, "Object::clone of 1,100 keys", 1100, 1100, 123)
    (Grown::Repeat, "from_pairs of 40 repeated keys", 40, 40, 88)
    (Grown::Repeat, "from_pairs of 300 repeated keys", 300, 300, 96)
    (Grown::Pairs, "from_pairs of 1,100 keys", 1100, 1100, 51)
    (Grown::Collect, "collect of 40 keys", 40, 40, 45)
    (Grown::Map, "into_json of a map of 20 strings", 20, 20, 66)
    (Grown::HashMap, "into_json of a hash map of 20 strings", 20, 20, 75)
};

/// The parser has all keys on one stack and all values on another, each with room for eight that
/// doubles; the object takes both blocks and a box. Each `[1]` is a block, and the first one opens
/// the stack of containers. Up to 32 keys have no index; more have one in two blocks. A strict
/// reading makes it at the 33rd key, in a box and with room for 64 entries, which doubles at the
/// 65th key; the object takes it. Of the keys of one hash, which have 11 to 80 bytes, 48 have a
/// block each, and the buffer for escapes has 11 bytes, then 22, 44 and 88.
const SIZES: &[GrownRow] = rows! {
    (Grown::Parse("[1]"), "parse, retain and drop of 1 key", 1, 0, 5)
    (Grown::Parse("[1]"), "parse, retain and drop of 11 keys", 11, 1, 17)
    (Grown::Parse("[1]"), "parse, retain and drop of 32 keys", 32, 22, 40)
    (Grown::Parse("[1]"), "parse, retain and drop of 33 keys", 33, 23, 44)
    (Grown::Parse("[1]"), "parse, retain and drop of 65 keys", 65, 55, 78)
    (Grown::ParseStrictly("null"), "strict parse_as, retain and drop of 70 keys", 70, 60, 14)
    (Grown::ParseStrictly("[1]"), "strict parse_as of 70 arrays, retain and drop", 70, 60, 86)
    (Grown::ParseOneHash, "strict parse_as of 70 keys of one hash", 70, 70, 66)
    (Grown::Parse("null"), "parse, retain and drop of 300 keys", 300, 290, 16)
};

#[test]
fn grown_under_refusals(rt: HostRuntime) -> Tested {
    fail_each_of(&rt, rt.alloc(), GROWN)
}

#[test]
fn sizes_under_refusals(rt: HostRuntime) -> Tested {
    fail_each_of(&rt, rt.alloc(), SIZES)
}
