//! Mutable references into a value.

ghost use Rattle.std.specs.Prelude.{◌≡◌, slice_set, OnOk, OnErr};
ghost use Rattle.jzon_base.specs.PairList.{put};
ghost use Rattle.jzon_tree.specs.Lent.{with_place, place_in, items_of};
ghost use Rattle.jzon_tree.specs.Readers.{entries};
ghost use Rattle.jzon_tree.specs.Value.{null, array, object, values_of, pairs_of};
ghost use Rattle.jzon_tree.specs.View.{view};

use crate::common::{
    Tested, Tester, each_value, expect, expect_dump, expect_eq, expect_text, number,
};
use jzon::lent::{write_at, write_at_index, write_present};
use jzon::object::Object;
use jzon::{JsonValue, Result, parse};
use std::alloc::Global;

const ALLOCATED: &str = "\"abcdefghijklmnopqrstuvwxyz01234\"";

/// A value, what `at_mut` of `a` lends, and the whole after 7 is written there.
const KEYS: &[(&str, &str, &str)] = &[
    ("{\"a\":1}", "1", "{\"a\":7}"),
    ("{\"b\":1}", "null", "{\"b\":1,\"a\":7}"),
    ("{}", "null", "{\"a\":7}"),
    ("null", "null", "{\"a\":7}"),
    ("5", "null", "{\"a\":7}"),
    ("[1,2]", "null", "{\"a\":7}"),
    ("true", "null", "{\"a\":7}"),
    ("\"ab\"", "null", "{\"a\":7}"),
    (ALLOCATED, "null", "{\"a\":7}"),
];

#[test]
fn makes_keys(rt: HostRuntime) -> Tested {
    let alloc = rt.alloc();
    for (before, borrowed, after) in KEYS {
        let mut value = parse(alloc, before)?;
        let place = value.at_mut(alloc, "a")?;
        expect_dump(&rt, place, borrowed);
        *place = number(7);
        expect_dump(&rt, &value, after);
    }
    Ok(())
}

#[test]
fn makes_keys_of_keys(rt: HostRuntime) -> Tested {
    let mut value = JsonValue::Null;
    *value.at_mut(rt.alloc(), "foo")?.at_mut(rt.alloc(), "bar")? = number(100);
    expect_dump(&rt, &value, "{\"foo\":{\"bar\":100}}");
    Ok(())
}

/// A value, an index, what `at_index_mut` lends there, the whole then, and the whole after 7 is
/// written there.
const ELEMENTS: &[(&str, usize, &str, &str, &str)] = &[
    ("5", 7, "null", "[null,null]", "[null,7]"),
    ("5", usize::MAX, "null", "[null,null]", "[null,7]"),
    ("5", 0, "null", "[null]", "[7]"),
    ("{\"a\":1}", 1, "null", "[null,null]", "[null,7]"),
    ("null", 1, "null", "[null,null]", "[null,7]"),
    ("true", 1, "null", "[null,null]", "[null,7]"),
    ("\"ab\"", 0, "null", "[null]", "[7]"),
    (ALLOCATED, 0, "null", "[null]", "[7]"),
    ("[1]", 9, "null", "[1,null]", "[1,7]"),
    ("[1]", 1, "null", "[1,null]", "[1,7]"),
    ("[]", 0, "null", "[null]", "[7]"),
    ("[1,2,3]", 1, "2", "[1,2,3]", "[1,7,3]"),
    ("[1,2,3]", 2, "3", "[1,2,3]", "[1,2,7]"),
];

#[test]
fn makes_elements(rt: HostRuntime) -> Tested {
    let alloc = rt.alloc();
    for (before, index, borrowed, made, written) in ELEMENTS {
        let mut value = parse(alloc, before)?;
        expect_dump(&rt, value.at_index_mut(alloc, *index)?, borrowed);
        expect_dump(&rt, &value, made);
        let mut value = parse(alloc, before)?;
        *value.at_index_mut(alloc, *index)? = number(7);
        expect_dump(&rt, &value, written);
    }
    Ok(())
}

/// There is nothing of another kind in it to borrow: of an object no elements, of an array no
/// entries, of any other value nothing. In an empty container there is nothing either, even if it
/// has room. What isn't borrowed leaves the value as it was, and an allocated string allocated.
fn borrow_nothing(rt: &impl Tester, text: &str, mut value: JsonValue) -> Tested {
    let before = value.clone(rt.alloc())?;
    let is_allocated = matches!(value, JsonValue::String(_));
    if !value.is_object() {
        expect(rt, text, value.get_mut("a").is_none());
        expect(rt, text, value.as_object_mut().is_none());
    }
    if !value.is_object() || value.is_empty() {
        expect(rt, text, value.entries_mut().next().is_none());
    }
    if !value.is_array() {
        expect(rt, text, value.as_array_mut().is_none());
    }
    if !value.is_array() || value.is_empty() {
        expect(rt, text, value.members_mut().next().is_none());
    }
    expect(rt, text, value == before);
    expect_eq(
        rt,
        text,
        matches!(value, JsonValue::String(_)),
        is_allocated,
    );
    expect_dump(rt, &value, text);
    Ok(())
}

#[test]
fn borrows_nothing_of_another_kind(rt: HostRuntime) -> Tested {
    for (text, value) in each_value(rt.alloc())? {
        borrow_nothing(&rt, text, value)?;
    }
    Ok(())
}

#[test]
fn borrows_what_is_there(rt: HostRuntime) -> Tested {
    borrow_entries(&rt, parse(rt.alloc(), "{\"a\":[1]}")?)?;
    let mut value = parse(rt.alloc(), "[1]")?;
    if let Some(items) = value.as_array_mut() {
        items.clear();
    }
    expect_dump(&rt, &value, "[]");
    Ok(())
}

/// It is `{"a":[1]}`.
fn borrow_entries(rt: &impl Tester, mut value: JsonValue) -> Tested {
    expect(rt, "no b", value.get_mut("b").is_none());
    if let Some(place) = value.get_mut("a") {
        place.push(rt.alloc(), 2)?;
    }
    expect_dump(rt, &value, "{\"a\":[1,2]}");
    if let Some(object) = value.as_object_mut() {
        object.clear();
    }
    expect_dump(rt, &value, "{}");
    Ok(())
}

/// From the back, each element becomes the one that was taken before it, and the last one null.
fn move_members(value: &mut JsonValue) {
    let mut before = JsonValue::Null;
    for member in value.members_mut().rev() {
        let taken = member.take();
        *member = before;
        before = taken;
    }
}

fn move_entries(value: &mut JsonValue) {
    let mut before = JsonValue::Null;
    for (key, place) in value.entries_mut().rev() {
        let taken = place.take();
        if key != "b" {
            *place = before;
        }
        before = taken;
    }
}

/// A value, and the whole after its members are moved, and after its entries are.
const MOVED: &[(&str, &str, &str)] = &[
    ("[1,2,3]", "[2,3,null]", "[1,2,3]"),
    ("[]", "[]", "[]"),
    ("{}", "{}", "{}"),
    (
        "[1,2,3,4,5,6,7,8,9]",
        "[2,3,4,5,6,7,8,9,null]",
        "[1,2,3,4,5,6,7,8,9]",
    ),
    (
        "{\"a\":1,\"b\":2,\"c\":3}",
        "{\"a\":1,\"b\":2,\"c\":3}",
        "{\"a\":2,\"b\":null,\"c\":null}",
    ),
    ("7", "7", "7"),
];

fn expect_moved(rt: &impl Tester, before: &str, members: &str, entries: &str) -> Tested {
    let mut value = parse(rt.alloc(), before)?;
    move_members(&mut value);
    expect_dump(rt, &value, members);
    let mut value = parse(rt.alloc(), before)?;
    move_entries(&mut value);
    expect_dump(rt, &value, entries);
    Ok(())
}

#[test]
fn borrows_members_and_entries(rt: HostRuntime) -> Tested {
    for (before, members, entries) in MOVED {
        expect_moved(&rt, before, members, entries)?;
    }
    Ok(())
}

#[test]
fn writes(rt: HostRuntime) -> Tested {
    let alloc = rt.alloc();
    let mut value = JsonValue::Null;
    expect(&rt, "no a", !write_present(&mut value, "a", number(1)));
    put_value(&mut value, alloc, "a", number(2))?;
    expect_dump(&rt, &value, "{\"a\":2}");
    expect(&rt, "a", write_present(&mut value, "a", number(3)));
    expect_dump(&rt, &value, "{\"a\":3}");
    put_item(&mut value, alloc, 1, number(4))?;
    expect_dump(&rt, &value, "[null,4]");
    Ok(())
}

fn make_keys(rt: &impl Tester, mut object: Object) -> Tested {
    let alloc = rt.alloc();
    *object.at_mut(alloc, "a")? = number(1);
    expect(rt, "b", object.at_mut(alloc, "b")?.is_null());
    expect(rt, "a", object.at_mut(alloc, "a")?.eq_u64(1));
    *object.at_mut(alloc, "a")? = number(2);
    expect_text(rt, &object, "{\"a\":2,\"b\":null}");
    Ok(())
}

/// An object without entries lends the values of two keys, also one that has room.
#[test]
fn objects_make_keys(rt: HostRuntime) -> Tested {
    make_keys(&rt, Object::new(rt.alloc()))?;
    make_keys(&rt, Object::with_capacity(rt.alloc(), 5)?)
}

/// A caller's proof knows what was written.
fn put_value(value: &mut JsonValue, alloc: Global, key: &str, written: JsonValue) -> Result<()>
    ensures ok { OnOk result (view value.new ≡
        object (pairs_of (put key.now (view written) (entries (view value.old))))) }
    ensures err { OnErr result (value.new ≡ value.old) }
{
    write_at(value, alloc, key, written)
}

fn put_item(value: &mut JsonValue, alloc: Global, index: usize, written: JsonValue) -> Result<()>
    ensures ok { OnOk result (view value.new ≡
        array (values_of (slice_set (with_place null (items_of (view value.old)) index)
        (place_in (items_of (view value.old)) index) (view written)))) }
    ensures err { OnErr result (view value.new ≡ view value.old) }
{
    write_at_index(value, alloc, index, written)
}
