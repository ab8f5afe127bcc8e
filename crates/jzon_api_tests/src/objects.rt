//! Objects.

use self::Call::*;
use crate::common::{
    Tested, Tester, expect, expect_dump, expect_eq, expect_text, is_entry, number, parts,
};
use jzon::object::{Iter, IterMut, Key, Keys, Object, Values};
use jzon::{Error, JsonValue, Result, parse};
use std::alloc::Global;

/// The object that a text means.
fn object_of(alloc: Global, text: &str) -> Result<Object> {
    match parse(alloc, text)? {
        JsonValue::Object(object) => Ok(object),
        _ => Err(Error::wrong_type(alloc, "Object")?),
    }
}

/// An object, and what it is after 9 is inserted under `a`.
const INSERTED: &[(&str, &str)] = &[
    ("{}", "{\"a\":9}"),
    ("{\"a\":1,\"b\":2}", "{\"a\":9,\"b\":2}"),
    ("{\"b\":1,\"c\":2}", "{\"b\":1,\"c\":2,\"a\":9}"),
];

#[test]
fn inserts(rt: HostRuntime) -> Tested {
    for (before, after) in INSERTED {
        let mut object = object_of(rt.alloc(), before)?;
        let alloc = object.allocator();
        object.insert(alloc, "a", number(9))?;
        expect_text(&rt, &object, after);
    }
    Ok(())
}

/// An object, what `remove` of `a` returns, and what it leaves.
const REMOVED: &[(&str, Option<&str>, &str)] = &[
    ("{\"a\":1}", Some("1"), "{}"),
    ("{\"a\":1,\"b\":2,\"c\":3}", Some("1"), "{\"b\":2,\"c\":3}"),
    ("{\"b\":1,\"a\":2,\"c\":3}", Some("2"), "{\"b\":1,\"c\":3}"),
    ("{\"b\":1}", None, "{\"b\":1}"),
    ("{}", None, "{}"),
];

#[test]
fn removes(rt: HostRuntime) -> Tested {
    for (before, removed, left) in REMOVED {
        let mut object = object_of(rt.alloc(), before)?;
        match (object.remove("a"), removed) {
            (Some(value), Some(removed)) => expect_dump(&rt, &value, removed),
            (value, _) => expect(&rt, before, value.is_none() && removed.is_none()),
        }
        expect_text(&rt, &object, left);
    }
    Ok(())
}

/// Of three members one that isn't there, and then the middle one, is removed and put again.
#[test]
fn puts_a_removed_key_last(rt: HostRuntime) -> Tested {
    let alloc = rt.alloc();
    let mut object = object_of(alloc, "{\"a\":1,\"b\":2,\"c\":3}")?;
    expect(&rt, "no x", object.remove("x").is_none());
    expect_text(&rt, &object, "{\"a\":1,\"b\":2,\"c\":3}");
    let removed = object.remove("b").unwrap_or(JsonValue::Null);
    expect(&rt, "2", removed.eq_u64(2));
    expect_text(&rt, &object, "{\"a\":1,\"c\":3}");
    object.insert(alloc, "b", number(4))?;
    expect_text(&rt, &object, "{\"a\":1,\"c\":3,\"b\":4}");
    Ok(())
}

/// An object, and its members with other keys than `b`, in order, each with what the closure wrote.
const RETAINED: &[(&str, &str)] = &[
    ("{\"a\":1,\"b\":2,\"c\":3}", "{\"a\":9,\"c\":9}"),
    ("{\"b\":1,\"c\":2}", "{\"c\":9}"),
    ("{\"a\":1}", "{\"a\":9}"),
    ("{\"b\":1}", "{}"),
    ("{}", "{}"),
];

fn retain_others(object: &mut Object) {
    object.retain(|key, value| {
        *value = number(9);
        key != "b"
    });
}

#[test]
fn retains(rt: HostRuntime) -> Tested {
    for (before, after) in RETAINED {
        let mut object = object_of(rt.alloc(), before)?;
        retain_others(&mut object);
        expect_text(&rt, &object, after);
    }
    Ok(())
}

#[test]
fn overrides_the_last(rt: HostRuntime) -> Tested {
    let mut object = object_of(rt.alloc(), "{\"a\":1,\"b\":2,\"c\":3}")?;
    object.override_last(number(9));
    expect_text(&rt, &object, "{\"a\":1,\"b\":2,\"c\":9}");
    expect_eq(&rt, "the length", object.len(), 3);
    object.clear();
    object.override_last(number(9));
    expect_eq(&rt, "the length", object.len(), 0);
    expect_text(&rt, &object, "{}");
    Ok(())
}

#[test]
fn borrows_its_values(rt: HostRuntime) -> Tested {
    let mut object = object_of(rt.alloc(), "{\"a\":1,\"b\":2,\"c\":3}")?;
    expect(&rt, "no x", object.get_mut("x").is_none());
    if let Some(value) = object.get_mut("b") {
        *value = JsonValue::Null;
    }
    expect_text(&rt, &object, "{\"a\":1,\"b\":null,\"c\":3}");
    for (_, value) in object.iter_mut() {
        *value = JsonValue::Boolean(true);
    }
    expect_text(&rt, &object, "{\"a\":true,\"b\":true,\"c\":true}");
    Ok(())
}

#[test]
fn goes_over_its_entries_from_both_ends(rt: HostRuntime) -> Tested {
    let object = object_of(rt.alloc(), "{\"a\":1,\"b\":2,\"c\":3}")?;
    let mut pairs = object.iter();
    expect(&rt, "the first", is_entry(pairs.next(), "a", 1));
    expect(&rt, "the last", is_entry(pairs.next_back(), "c", 3));
    expect_eq(&rt, "how many are left", pairs.len(), 1);
    expect_eq(&rt, "size_hint", pairs.size_hint(), (1, Some(1)));
    expect(&rt, "the one between", is_entry(pairs.next(), "b", 2));
    expect(&rt, "no more", pairs.next_back().is_none());
    expect(&rt, "Iter::empty", Iter::empty().next().is_none());
    expect(&rt, "IterMut::empty", IterMut::empty().next().is_none());
    Ok(())
}

/// The longest key that is kept inline, and the shortest one that isn't.
const INLINE: &str = "0123456789abcdef0123456789abcdef";

const OWNED: &str = "0123456789abcdef0123456789abcdef!";

/// The keys from the back, with a comma after each.
fn keys_from_the_back(alloc: Global, object: Object) -> Result<String> {
    let mut keys = String::new(alloc);
    for (key, _) in object.into_iter().rev() {
        keys.push_str(key.into_string(alloc)?.as_str())?;
        keys.push(',')?;
    }
    Ok(keys)
}

#[test]
fn gives_its_keys_whole(rt: HostRuntime) -> Tested {
    let mut object = Object::with_capacity(rt.alloc(), 2)?;
    object.insert(rt.alloc(), INLINE, number(1))?;
    object.insert(rt.alloc(), OWNED, number(2))?;
    expect(&rt, "get", object.get(INLINE) == Some(&number(1)));
    let longer = object.get(OWNED);
    expect(&rt, "get of a longer key", longer == Some(&number(2)));
    expect(&rt, "at", object.at(INLINE).eq_u64(1));
    expect(&rt, "at", object.at(OWNED).eq_u64(2));
    let is_missing = object.get("x").is_none() && object.at("x").value().is_none();
    expect(&rt, "no x", is_missing);
    let keys = keys_from_the_back(rt.alloc(), object)?;
    let want = "0123456789abcdef0123456789abcdef!,0123456789abcdef0123456789abcdef,";
    expect_eq(&rt, "the keys", keys.as_str(), want);
    Ok(())
}

#[test]
fn equals_in_any_order(rt: HostRuntime) -> Tested {
    let object = object_of(rt.alloc(), "{\"a\":1,\"b\":2}")?;
    let mut other = Object::with_capacity(rt.alloc(), 2)?;
    other.insert(rt.alloc(), "b", number(2))?;
    expect(&rt, "another length", object != other);
    other.insert(rt.alloc(), "a", parts(true, 10, -1))?;
    expect(&rt, "equal", object == other);
    let copy = other.clone(rt.alloc())?;
    expect(&rt, "the copy", object == copy);
    expect_text(&rt, &copy, "{\"b\":2,\"a\":1.0}");
    Ok(())
}

#[test]
fn shows_its_keys(rt: HostRuntime) -> Tested {
    let object = object_of(rt.alloc(), "{\"a\\n\":1}")?;
    let text = format!(in rt.alloc(); "{object:?}")?;
    expect(&rt, "Debug", text.as_str().contains("\"a\\n\""));
    Ok(())
}

/// A position, and the text of the object after 9 is written there.
const WRITTEN: &[(usize, &str)] = &[
    (0, "{\"b\":9,\"a\":2}"),
    (1, "{\"b\":1,\"a\":9}"),
    (2, "{\"b\":1,\"a\":2}"),
];

#[test]
fn reads_and_writes_by_position(rt: HostRuntime) -> Tested {
    let alloc = rt.alloc();
    let object = object_of(alloc, "{\"b\":1,\"a\":2}")?;
    expect(&rt, "at 0", is_entry(object.get_index(0), "b", 1));
    expect(&rt, "at 1", is_entry(object.get_index(1), "a", 2));
    expect(&rt, "at 2", object.get_index(2).is_none());
    for (index, text) in WRITTEN {
        let mut object = object_of(alloc, "{\"b\":1,\"a\":2}")?;
        if let Some(value) = object.get_index_mut(*index) {
            *value = number(9);
        }
        expect_text(&rt, &object, text);
    }
    Ok(())
}

/// A position in `{"b":1,"a":2,"c":3}`, the entry that is removed there, and the text of the others.
const REMOVED_AT: &[(usize, Option<(&str, u64)>, &str)] = &[
    (0, Some(("b", 1)), "{\"a\":2,\"c\":3}"),
    (1, Some(("a", 2)), "{\"b\":1,\"c\":3}"),
    (2, Some(("c", 3)), "{\"b\":1,\"a\":2}"),
    (3, None, "{\"b\":1,\"a\":2,\"c\":3}"),
    (usize::MAX, None, "{\"b\":1,\"a\":2,\"c\":3}"),
];

#[test]
fn removes_by_position(rt: HostRuntime) -> Tested {
    for (index, removed, left) in REMOVED_AT {
        let mut object = object_of(rt.alloc(), "{\"b\":1,\"a\":2,\"c\":3}")?;
        let found = object.shift_remove_index(*index);
        expect(&rt, left, is_removed(found, *removed));
        expect_text(&rt, &object, left);
    }
    Ok(())
}

/// Whether it is an entry of this key and this number, or neither is there.
fn is_removed(found: Option<(Key, JsonValue)>, want: Option<(&str, u64)>) -> bool {
    match (found, want) {
        (Some((key, value)), Some((name, number))) => {
            key.as_str() == name && value.eq_u64(number)
        }
        (None, None) => true,
        _ => false,
    }
}

/// The object hasn't the key of this entry.
fn is_gone(object: &Object, removed: Option<(Key, JsonValue)>) -> bool {
    match removed {
        Some((key, _value)) => object.get_index_of(key.as_str()).is_none(),
        None => true,
    }
}

/// Each key is at its position, also after the removal of another, and the removed one is gone.
#[test]
fn knows_positions(rt: HostRuntime) -> Tested {
    let alloc = rt.alloc();
    for count in COUNTS {
        let mut object = filled(alloc, Object::new(alloc), *count)?;
        let removed = object.shift_remove_index(object.len() / 2);
        expect(&rt, "the removed key", is_gone(&object, removed));
        for index in 0..object.len() {
            let found = object
                .get_index(index)
                .map(|entry| object.get_index_of(entry.0));
            expect(&rt, NEW, found == Some(Some(index)));
        }
        expect_eq(&rt, NEW, object.get_index_of(NEW), None);
    }
    Ok(())
}

#[test]
fn collects_entries(rt: HostRuntime) -> Tested {
    let alloc = rt.alloc();
    let object: Object = [("b", 1u8), ("a", 2), ("b", 3)].into_iter().collect(alloc)?;
    expect_text(&rt, &object, "{\"b\":3,\"a\":2}");
    let names = ["a", "bc", ""];
    let object: Object = names.iter().map(|name| (*name, name.len())).collect(alloc)?;
    expect_text(&rt, &object, "{\"a\":1,\"bc\":2,\"\":0}");
    let empty: [(String, bool); 0] = [];
    let object: Object = empty.into_iter().collect(alloc)?;
    expect(&rt, "nothing", object.is_empty());
    Ok(())
}

/// They are `b` and `a`, from both ends.
fn expect_keys(rt: &impl Tester, mut keys: Keys<'_>) {
    expect_eq(rt, "the number of keys", keys.len(), 2);
    expect_eq(rt, "the last key", keys.next_back(), Some("a"));
    expect_eq(rt, "the first key", keys.next(), Some("b"));
    expect_eq(rt, "no more", keys.next(), None);
}

/// They are 2 and null, from both ends.
fn expect_values(rt: &impl Tester, mut values: Values<'_>) {
    expect_eq(rt, "the number of values", values.len(), 2);
    let last = values.next_back();
    expect(rt, "the last", last == Some(&JsonValue::Null));
    expect(rt, "the first", values.next() == Some(&number(2)));
    expect(rt, "no more", values.next().is_none());
}

#[test]
fn lists_keys_and_values(rt: HostRuntime) -> Tested {
    let alloc = rt.alloc();
    let object = object_of(alloc, "{\"b\":1,\"a\":null,\"b\":2}")?;
    expect_keys(&rt, object.keys());
    expect_values(&rt, object.values());
    expect(&rt, "a", object.contains_key("a"));
    expect(&rt, "ab", !object.contains_key("ab"));
    let none = Object::new(alloc);
    expect(&rt, "no key", none.keys().next().is_none());
    expect(&rt, "no value", none.values().next().is_none());
    Ok(())
}

/// A key that no object of these has.
const NEW: &str = "0123456789abcdef0123456789abcdef01234567";

/// An object of these many entries, which are `true` under keys of six and of 38 bytes. By 0 it grew,
/// by 1 it had room before, and by 2 and 3 it had an entry more, which was removed.
fn made(by: u8, alloc: Global, count: u32) -> Result<Object> {
    match by {
        0 => filled(alloc, Object::new(alloc), count),
        1 => filled(alloc, Object::with_capacity(alloc, 40)?, count),
        2 => removed(alloc, count),
        _ => retained(alloc, count),
    }
}

fn removed(alloc: Global, count: u32) -> Result<Object> {
    let mut object = filled(alloc, Object::new(alloc), count)?;
    object.insert(alloc, NEW, JsonValue::Null)?;
    drop(object.remove(NEW));
    Ok(object)
}

fn retained(alloc: Global, count: u32) -> Result<Object> {
    let mut object = Object::new(alloc);
    object.insert(alloc, NEW, JsonValue::Null)?;
    let mut object = filled(alloc, object, count)?;
    object.retain(|key, _| key != NEW);
    Ok(object)
}

fn filled(alloc: Global, mut object: Object, count: u32) -> Result<Object> {
    for number in 0..count {
        let width = if number % 3 == 0 { 38 } else { 6 };
        let key = format!(in alloc; "{number:0width$}")?;
        object.insert(alloc, key.as_str(), JsonValue::Boolean(true))?;
    }
    Ok(object)
}

/// A call on an object. `SetLast` is `override_last`.
#[derive(Clone, Copy)]
enum Call {
    Insert,
    AtMut,
    SetLast,
    Remove,
    RemoveAt,
    Retain,
    Clear,
    GetMut,
    IterMut,
    IntoIter,
    CloneAll,
}

const CALLS: &[Call] = &[
    Insert, AtMut, SetLast, Remove, RemoveAt, Retain, Clear, GetMut, IterMut, IntoIter, CloneAll,
];

/// The first two entries and the last one are read, and the others dropped. How many were read.
fn read_some(object: Object) -> usize {
    let mut entries = object.into_iter();
    let read = [entries.next(), entries.next(), entries.next_back()];
    read.iter().filter(|entry| entry.is_some()).count()
}

impl Call {
    /// How many entries the call leaves, or reads, of an object of this many.
    fn left(self, count: usize) -> usize {
        match self {
            Insert | AtMut => count.saturating_add(1),
            Remove | RemoveAt => count.saturating_sub(1),
            Retain => count / 2,
            Clear => 0,
            IntoIter => count.min(3),
            _ => count,
        }
    }

    /// How many entries are left or read.
    fn call(self, alloc: Global, mut object: Object) -> Result<usize> {
        match self {
            Insert => object.insert(alloc, NEW, JsonValue::Null)?,
            AtMut => drop(object.at_mut(alloc, NEW)?.take()),
            SetLast => object.override_last(JsonValue::Null),
            Remove => drop(object.remove("00000000000000000000000000000000000000")),
            RemoveAt => drop(object.shift_remove_index(0)),
            Retain => {
                let mut is_kept = true;
                object.retain(|_, _| {
                    is_kept = !is_kept;
                    is_kept
                });
            }
            Clear => object.clear(),
            GetMut => drop(object.get_mut(NEW).is_none()),
            IterMut => drop(object.iter_mut().next_back().is_some()),
            IntoIter => return Ok(read_some(object)),
            CloneAll => return Ok(object.clone(alloc)?.len()),
        }
        Ok(object.len())
    }
}

const COUNTS: &[u32] = &[0, 1, 2, 32, 33, 40, 300];

#[test]
fn changes_objects_of_each_room(rt: HostRuntime) -> Tested {
    let alloc = rt.alloc();
    for call in CALLS {
        for count in COUNTS {
            for by in 0..4 {
                let left = call.call(alloc, made(by, alloc, *count)?)?;
                expect(&rt, "what is left", left == call.left(*count as usize));
            }
        }
    }
    Ok(())
}
