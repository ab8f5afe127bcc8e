//! Calls that change a value.

use self::Change::*;
use crate::common::{
    Tested, Tester, each_unread, each_value, expect, expect_dump, expect_eq, expect_same, long,
};
use jzon::lent::{write_at, write_at_index, write_present};
use jzon::{Error, JsonValue, Result, parse};
use jzon_test_support::Unconvertible;
use std::alloc::Global;

/// A value, and what `clear` leaves of it.
const CLEARED: &[(&str, &str)] = &[
    ("null", "null"),
    ("true", "null"),
    ("7", "null"),
    ("\"abc\"", "\"\""),
    ("\"abcdefghijklmnopqrstuvwxyz01234\"", "\"\""),
    ("{\"a\":1,\"b\":2}", "{}"),
    ("[1,2,3]", "[]"),
];

/// A `Short` stays a `Short`.
fn expect_cleared(rt: &impl Tester, mut value: JsonValue, text: &str) {
    let is_short = matches!(value, JsonValue::Short(_));
    value.clear();
    expect_eq(rt, text, matches!(value, JsonValue::Short(_)), is_short);
    expect_dump(rt, &value, text);
}

#[test]
fn clears(rt: HostRuntime) -> Tested {
    for (before, after) in CLEARED {
        expect_cleared(&rt, parse(rt.alloc(), before)?, after);
    }
    Ok(())
}

#[test]
fn takes(rt: HostRuntime) -> Tested {
    let mut value = parse(rt.alloc(), "[1,2,3]")?;
    let taken = value.take();
    expect(&rt, "null is left", value.is_null());
    expect_dump(&rt, &taken, "[1,2,3]");
    Ok(())
}

/// `take_string` returns `taken`, and what is left dumps `left`.
fn expect_taken(rt: &impl Tester, mut value: JsonValue, taken: Option<&str>, left: &str) -> Tested {
    let text = value.take_string(rt.alloc())?;
    expect_eq(rt, left, text.as_deref(), taken);
    expect_dump(rt, &value, left);
    Ok(())
}

/// A value, and what `take_string` returns and leaves.
const TAKEN: &[(&str, Option<&str>, &str)] = &[
    ("\"abc\"", Some("abc"), "null"),
    ("\"\"", Some(""), "null"),
    (
        "\"abcdefghijklmnopqrstuvwxyz0123\"",
        Some("abcdefghijklmnopqrstuvwxyz0123"),
        "null",
    ),
    (
        "\"abcdefghijklmnopqrstuvwxyz01234\"",
        Some("abcdefghijklmnopqrstuvwxyz01234"),
        "null",
    ),
    ("null", None, "null"),
    ("7", None, "7"),
    ("true", None, "true"),
    ("{\"a\":1,\"b\":2}", None, "{\"a\":1,\"b\":2}"),
    ("[1,2,3]", None, "[1,2,3]"),
];

#[test]
fn takes_strings(rt: HostRuntime) -> Tested {
    let alloc = rt.alloc();
    for (before, taken, left) in TAKEN {
        expect_taken(&rt, parse(alloc, before)?, *taken, left)?;
    }
    expect_taken(&rt, long(alloc, "abc")?, Some("abc"), "null")
}

/// A call that removes.
#[derive(Clone, Copy)]
enum Removal {
    Pop,
    At(usize),
    Key(&'static str),
}

impl Removal {
    fn from(self, value: &mut JsonValue) -> JsonValue {
        match self {
            Removal::Pop => value.pop(),
            Removal::At(index) => value.array_remove(index),
            Removal::Key(key) => value.remove(key),
        }
    }
}

/// A call, the value before it, what is removed, and what is left.
const REMOVED: &[(Removal, &str, &str, &str)] = &[
    (Removal::Pop, "[1,2,3]", "3", "[1,2]"),
    (Removal::Pop, "[1]", "1", "[]"),
    (Removal::Pop, "[]", "null", "[]"),
    (Removal::Pop, "7", "null", "7"),
    (Removal::Pop, "{\"a\":1}", "null", "{\"a\":1}"),
    (Removal::At(0), "[1,2,3]", "1", "[2,3]"),
    (Removal::At(1), "[1,2,3]", "2", "[1,3]"),
    (Removal::At(2), "[1,2]", "null", "[1,2]"),
    (Removal::At(5), "[1,2]", "null", "[1,2]"),
    (Removal::At(0), "7", "null", "7"),
    (Removal::At(0), "{\"a\":1}", "null", "{\"a\":1}"),
    (
        Removal::Key("b"),
        "{\"a\":1,\"b\":2,\"c\":3}",
        "2",
        "{\"a\":1,\"c\":3}",
    ),
    (Removal::Key("b"), "{\"a\":1}", "null", "{\"a\":1}"),
    (Removal::Key("b"), "7", "null", "7"),
    (Removal::Key("b"), "[1]", "null", "[1]"),
];

#[test]
fn removes(rt: HostRuntime) -> Tested {
    for (removal, before, removed, left) in REMOVED {
        let mut value = parse(rt.alloc(), before)?;
        let taken = removal.from(&mut value);
        expect_dump(&rt, &taken, removed);
        expect_dump(&rt, &value, left);
    }
    Ok(())
}

const REMOVALS: &[Removal] = &[Removal::Pop, Removal::At(0), Removal::Key("a")];

/// There is nothing in it to remove, and it stays as it was.
fn remove_nothing(rt: &impl Tester, text: &str, mut value: JsonValue) {
    for removal in REMOVALS {
        expect(rt, text, removal.from(&mut value).is_null());
    }
    expect_dump(rt, &value, text);
}

/// An empty array and empty objects that have room are among these values.
#[test]
fn removes_nothing(rt: HostRuntime) -> Tested {
    for (text, value) in each_unread(rt.alloc())? {
        remove_nothing(&rt, text, value);
    }
    Ok(())
}

/// An object, and what it is with null under `b`.
const INSERTED: &[(&str, &str)] = &[
    ("{}", "{\"b\":null}"),
    ("{\"a\":1,\"c\":3}", "{\"a\":1,\"c\":3,\"b\":null}"),
    ("{\"a\":1,\"b\":2,\"c\":3}", "{\"a\":1,\"b\":null,\"c\":3}"),
];

#[test]
fn inserts_members(rt: HostRuntime) -> Tested {
    for (before, after) in INSERTED {
        let mut value = parse(rt.alloc(), before)?;
        value.insert(rt.alloc(), "b", JsonValue::Null)?;
        expect_dump(&rt, &value, after);
    }
    Ok(())
}

/// The call failed with this message.
fn expect_failed(rt: &impl Tester, outcome: Result<()>, message: &str) {
    match outcome {
        Ok(()) => expect(rt, "no error", false),
        Err(error) => expect_same(rt, error.to_string(rt.alloc()), message),
    }
}

const NO_ARRAY: &str = "Wrong type, expected: Array";

const NO_OBJECT: &str = "Wrong type, expected: Object";

const NO_MEMORY: &str = "Out of memory";

/// A value, and the messages of a failed `push` and a failed `insert`.
const FAILED: &[(&str, &str, &str)] = &[
    ("null", NO_ARRAY, NO_OBJECT),
    ("5", NO_ARRAY, NO_OBJECT),
    ("true", NO_ARRAY, NO_OBJECT),
    ("\"ab\"", NO_ARRAY, NO_OBJECT),
    ("\"abcdefghijklmnopqrstuvwxyz01234\"", NO_ARRAY, NO_OBJECT),
    ("[1]", NO_MEMORY, NO_OBJECT),
    ("{\"a\":1}", NO_ARRAY, NO_MEMORY),
];

/// A failed call changes nothing.
fn expect_unchanged(rt: &impl Tester, mut value: JsonValue, row: (&str, &str, &str)) {
    let result = value.push(rt.alloc(), Unconvertible);
    expect_failed(rt, result, row.1);
    let result = value.insert(rt.alloc(), "a", Unconvertible);
    expect_failed(rt, result, row.2);
    expect_dump(rt, &value, row.0);
}

/// The kind of the value is tested before the conversion of what is put into it.
#[test]
fn fails_on_another_kind(rt: HostRuntime) -> Tested {
    for row in FAILED {
        expect_unchanged(&rt, parse(rt.alloc(), row.0)?, *row);
    }
    Ok(())
}

#[test]
fn fails_to_push_on_a_number(rt: HostRuntime) {
    let mut value = JsonValue::from(5u8);
    let result = value.push(rt.alloc(), 1);
    expect_failed(&rt, result, NO_ARRAY);
    expect_dump(&rt, &value, "5");
}

/// A call that changes or lends. `WriteOver` is `write_present`, `RemoveAt` is `array_remove`.
#[derive(Clone, Copy)]
enum Change {
    Push,
    Insert,
    AtMut,
    AtIndexMut,
    WriteAt,
    WriteIndex,
    WriteOver,
    Pop,
    RemoveAt,
    Remove,
    Clear,
    Take,
    TakeString,
    GetMut,
    ObjectMut,
    ArrayMut,
    MembersMut,
    EntriesMut,
}

const CHANGES: &[Change] = &[
    Push, Insert, AtMut, AtIndexMut, WriteAt, WriteIndex, WriteOver, Pop, RemoveAt, Remove, Clear,
    Take, TakeString, GetMut, ObjectMut, ArrayMut, MembersMut, EntriesMut,
];

/// A key that none of the values has.
const NEW: &str = "0123456789abcdef0123456789abcdef01234567";

/// Whether the kind was right.
fn is_right(outcome: Result<()>) -> Result<bool> {
    match outcome {
        Ok(()) => Ok(true),
        Err(Error::WrongType(_)) => Ok(false),
        Err(error) => Err(error),
    }
}

/// How many elements there are to be written, from both ends.
fn members(value: &mut JsonValue) -> usize {
    let mut members = value.members_mut();
    let last = usize::from(members.next_back().is_some());
    last.saturating_add(members.count())
}

/// How many entries there are to be written, from both ends.
fn entries(value: &mut JsonValue) -> usize {
    let mut entries = value.entries_mut();
    let mut count = usize::from(entries.next_back().is_some());
    for _ in entries {
        count = count.saturating_add(1);
    }
    count
}

fn is_cleared(value: &mut JsonValue) -> bool {
    value.clear();
    value.is_empty()
}

impl Change {
    /// Whether the call acts on a value of this kind, so that it may change it.
    fn acts(self, value: &JsonValue) -> bool {
        match self {
            Push | Pop | RemoveAt => value.is_array(),
            Insert | Remove => value.is_object(),
            TakeString => value.is_string(),
            AtMut | AtIndexMut | WriteAt | WriteIndex | Clear | Take => true,
            _ => false,
        }
    }

    /// Whether the call returned what it returns for a value of this kind.
    fn call(self, alloc: Global, value: &mut JsonValue, before: &JsonValue) -> Result<bool> {
        let array = if before.is_array() { before.len() } else { 0 };
        let object = if before.is_object() { before.len() } else { 0 };
        Ok(match self {
            Push => is_right(value.push(alloc, NEW))? == before.is_array(),
            Insert => is_right(value.insert(alloc, NEW, NEW))? == before.is_object(),
            AtMut => value.at_mut(alloc, NEW)?.is_null(),
            AtIndexMut => value.at_index_mut(alloc, usize::MAX)?.is_null(),
            WriteAt => write_at(value, alloc, NEW, JsonValue::from(1)).is_ok(),
            WriteIndex => write_at_index(value, alloc, 9, JsonValue::from(1)).is_ok(),
            WriteOver => !write_present(value, NEW, JsonValue::from(1)),
            Pop => value.pop().is_null() || array > 0,
            RemoveAt => value.array_remove(0).is_null() || array > 0,
            Remove => value.remove(NEW).is_null(),
            Clear => is_cleared(value),
            Take => value.take() == *before && value.is_null(),
            TakeString => value.take_string(alloc)?.is_some() == before.is_string(),
            GetMut => value.get_mut(NEW).is_none(),
            ObjectMut => value.as_object_mut().is_some() == before.is_object(),
            ArrayMut => value.as_array_mut().is_some() == before.is_array(),
            MembersMut => members(value) == array,
            EntriesMut => entries(value) == object,
        })
    }
}

fn expect_change(rt: &impl Tester, change: Change, mut value: JsonValue) -> Tested {
    let before = value.clone(rt.alloc())?;
    let answer = change.call(rt.alloc(), &mut value, &before)?;
    expect(rt, "the answer", answer);
    expect(rt, "what is left", change.acts(&before) || value == before);
    Ok(())
}

/// Each call on each kind of value, at its edges: an empty string that is allocated, an empty
/// container that has room. It succeeds where its kind of value allows it, and otherwise leaves the
/// value as it was.
#[test]
fn changes_each_kind(rt: HostRuntime) -> Tested {
    for change in CHANGES {
        for (_, value) in each_value(rt.alloc())? {
            expect_change(&rt, *change, value)?;
        }
    }
    Ok(())
}
