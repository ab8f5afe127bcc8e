//! Objects, and the references that they return.

use crate::common::*;
use jzon::lent::{write_at, write_at_index};
use jzon::object::{Key, Object};
use jzon_test_support::keys_by_hash;

#[derive(Clone, Copy)]
enum OfObject {
    WithCapacity,
    Insert,
    AtMut,
    Clone,
    FromPairs,
    Collected,
    StdClone,
    WriteAt,
    WriteAtIndex,
    Key(&'static str),
    KeyClone,
}

fn change(object: &mut Object, call: OfObject, alloc: Global) -> Result<()> {
    match call {
        OfObject::Insert => object.insert(alloc, LONG_KEY, JsonValue::Null)?,
        OfObject::Clone => *object = object.clone(alloc)?,
        OfObject::StdClone => *object = Clone::clone(object)?,
        _ => {
            object.at_mut(alloc, LONG_KEY)?;
        }
    }
    Ok(())
}

fn pairs(alloc: Global) -> Result<JsonValue> {
    let pairs = [("a", 1u8), ("b", 2), ("a", 3)];
    Ok(JsonValue::Object(Object::from_pairs(alloc, pairs.into_iter())?))
}

fn roomy(alloc: Global) -> Result<JsonValue> {
    Ok(JsonValue::Object(Object::with_capacity(alloc, 3)?))
}

fn collected(alloc: Global) -> Result<JsonValue> {
    let pairs = [("a", LONG_TEXT), ("b", ""), ("a", "")];
    let object: Object = pairs.into_iter().collect(alloc)?;
    Ok(JsonValue::Object(object))
}

fn cloned_key(alloc: Global) -> Result<JsonValue> {
    let key = Key::new(alloc, LONG_KEY)?;
    let copy = key.clone(alloc)?;
    Ok(JsonValue::String(copy.into_string(alloc)?))
}

fn key_text(alloc: Global, text: &str) -> Result<JsonValue> {
    let key = Key::new(alloc, text)?;
    Ok(JsonValue::String(key.into_string(alloc)?))
}

impl Call for OfObject {
    fn call(self, value: &mut JsonValue, alloc: Global) -> Result<()> {
        match self {
            OfObject::WithCapacity => set(value, roomy(alloc)),
            OfObject::FromPairs => set(value, pairs(alloc)),
            OfObject::Collected => set(value, collected(alloc)),
            OfObject::KeyClone => set(value, cloned_key(alloc)),
            OfObject::WriteAt => write_at(value, alloc, LONG_KEY, JsonValue::Null),
            OfObject::WriteAtIndex => write_at_index(value, alloc, 1, JsonValue::Null),
            OfObject::Key(text) => set(value, key_text(alloc, text)),
            OfObject::Insert | OfObject::AtMut | OfObject::Clone | OfObject::StdClone => {
                match value {
                    JsonValue::Object(object) => change(object, self, alloc),
                    _ => Ok(()),
                }
            }
        }
    }
}

const OF_OBJECTS: &[Row<OfObject>] = rows! {
    (OfObject::WithCapacity, "Object::with_capacity", "null", "{}", 3)
    (OfObject::Insert, "Object::insert", "{}", KEYED, 4)
    (OfObject::AtMut, "Object::at_mut", "{}", KEYED, 4)
    (OfObject::Clone, "Object::clone", LONG_DOCUMENT, LONG_DOCUMENT, 10)
    (OfObject::FromPairs, "Object::from_pairs", "null", "{\"a\":3,\"b\":2}", 5)
    (OfObject::StdClone, "std's Clone of an object", LONG_DOCUMENT, LONG_DOCUMENT, 10)
    (OfObject::Collected, "collect", "null", "{\"a\":\"\",\"b\":\"\"}", 6)
    (OfObject::WriteAt, "write_at", "5", KEYED, 4)
    (OfObject::WriteAtIndex, "write_at_index", "[true]", "[true,null]", 1)
    (OfObject::Key(LONG_KEY), "Key::new", "null", "\"0123456789abcdef0123456789abcdef01234567\"", 1)
    (OfObject::KeyClone, "Key::clone", "null", "\"0123456789abcdef0123456789abcdef01234567\"", 2)
    (OfObject::Key("inline"), "Key::into_string", "null", "\"inline\"", 1)
};

#[test]
fn objects_under_refusals(rt: HostRuntime) -> Tested {
    fail_each(&rt, rt.alloc(), OF_OBJECTS)
}

/// Puts each of these keys with null.
fn fill(object: &mut Object, alloc: Global, keys: &[String]) -> Result<()> {
    for key in keys {
        object.insert(alloc, key.as_str(), JsonValue::Null)?;
    }
    Ok(())
}

/// An object with room for a hundred entries takes them without an allocation, but not one more. It
/// keeps the room where it is read while it is empty.
#[test]
fn capacity_under_refusals(rt: HostRuntime) -> Tested {
    let alloc = rt.alloc();
    let keys = keys_by_hash(alloc, 100)?;
    let mut object = Object::with_capacity(alloc, 100)?;
    expect(&rt, "no entry", object.iter_mut().next().is_none());
    let mut refusals = Refusals::new(alloc);
    refusals.begin();
    let filled = fill(&mut object, alloc, &keys);
    let has_failed = refusals.has_failed();
    expect(&rt, "no allocation", !has_failed && filled.is_ok());
    expect(&rt, "the length", object.len() == 100);
    for _ in 0..RUNS_MAX {
        refusals.begin();
        let result = object.insert(alloc, "one more", JsonValue::Null);
        if !refusals.has_failed() {
            expect(&rt, "one more", result.is_ok());
            break;
        }
        expect(&rt, "the error", result == Err(Error::OutOfMemory));
        expect(&rt, "the length", object.len() == 100);
    }
    refusals.report(&rt, "Object::insert past the room", 2)?;
    Ok(())
}
