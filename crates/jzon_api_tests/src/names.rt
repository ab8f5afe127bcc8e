//! Public names of `jzon`, many of which no other test uses.

use crate::common::{Tested, Tester, expect, expect_dump, expect_eq};
use jzon::codegen::{Compact, Pretty, WriterGenerator, write_object};
use jzon::iterators::{Entries, EntriesMut, Members, MembersMut};
use jzon::number::{Number, NumberOutOfScope};
use jzon::object::{IntoIter, Iter, IterMut, Key, Object};
use jzon::util::{print_dec, write_bytes};
use jzon::{Array, JsonError, JsonResult, JsonValue, Null, array, laws, object, short};
use std::alloc::Global;

fn list(alloc: Global) -> JsonResult<JsonValue> {
    let mut items: Array = Vec::new(alloc);
    items.push(Null)?;
    items.push(true.into())?;
    Ok(JsonValue::Array(items))
}

/// They are null and true.
fn expect_elements(rt: &impl Tester, mut items: Members<'_>) {
    expect(rt, "null", items.next() == Some(&Null));
    expect(rt, "true", items.next() == Some(&JsonValue::Boolean(true)));
    expect_eq(rt, "how many are left", items.len(), 0);
}

fn clear_elements(value: &mut JsonValue) {
    let items: MembersMut<'_> = value.members_mut();
    for item in items {
        *item = Null;
    }
}

#[test]
fn names_elements(rt: HostRuntime) -> Tested {
    let mut value = list(rt.alloc())?;
    expect_elements(&rt, value.members());
    let text = value.lay_out(rt.alloc(), Compact)?;
    expect_eq(&rt, "Compact", text.as_str(), "[null,true]");
    let text = value.lay_out(rt.alloc(), Pretty(0))?;
    expect_eq(&rt, "Pretty", text.as_str(), "[\nnull,\ntrue\n]");
    clear_elements(&mut value);
    expect(&rt, "cleared", value == array![rt.alloc(); null, null]);
    Ok(())
}

/// There is one, of `a`.
fn expect_entry(rt: &impl Tester, entries: Entries<'_>) {
    let mut entries: Iter<'_> = entries;
    expect(rt, "a", matches!(entries.next(), Some(("a", _))));
    expect(rt, "no more", entries.next().is_none());
}

fn clear_entries(value: &mut JsonValue) {
    let entries: EntriesMut<'_> = value.entries_mut();
    for (_, value) in entries {
        *value = Null;
    }
}

fn clear_object(object: &mut Object) {
    let entries: IterMut<'_> = object.iter_mut();
    for (_, value) in entries {
        *value = true.into();
    }
}

/// There is one, of `a`, which is true.
fn expect_taken(rt: &impl Tester, mut entries: IntoIter) {
    expect_eq(rt, "the number of entries", entries.len(), 1);
    let entry: Option<(Key, JsonValue)> = entries.next();
    let is_there = entry.is_some_and(|(key, value)| key.as_str() == "a" && value.eq_bool(true));
    expect(rt, "the entry", is_there);
    expect(rt, "no more", entries.next_back().is_none());
}

fn one_entry(alloc: Global) -> JsonResult<JsonValue> {
    Ok(object! {alloc; "a": 1u8})
}

#[test]
fn names_entries(rt: HostRuntime) -> Tested {
    let mut value = one_entry(rt.alloc())?;
    expect_entry(&rt, value.entries());
    clear_entries(&mut value);
    expect_dump(&rt, &value, "{\"a\":null}");
    Ok(())
}

#[test]
fn names_entries_to_take(rt: HostRuntime) -> Tested {
    match one_entry(rt.alloc())? {
        JsonValue::Object(object) => {
            let mut object = object;
            clear_object(&mut object);
            expect_taken(&rt, object.into_iter());
            Ok(())
        }
        _ => Err(JsonError::OutOfMemory.into()),
    }
}

#[test]
fn names_what_writes(rt: HostRuntime) -> Tested {
    let mut out: Vec<u8> = Vec::new(rt.alloc());
    print_dec::write(&mut out, false, 1250, 1)?;
    write_bytes(&mut out, b" ")?;
    let text = print_dec::number_text(true, 125, -2);
    write_bytes(&mut out, text.as_str().as_bytes())?;
    let object = Object::new(rt.alloc());
    write_object(&mut WriterGenerator::new(&mut out), &object)?;
    let want = b"-12500 1.25{}".as_slice();
    expect_eq(&rt, "the bytes", out.as_slice(), want);
    expect_eq(&rt, "the length", short::MAX_LEN, 30);
    expect_eq(&rt, "the length", print_dec::MAX_LEN, 29);
    let read: Result<u8, NumberOutOfScope> = u8::try_from(Number::from(256u16));
    expect(&rt, "256 as u8", read.is_err());
    Ok(())
}

/// Nothing is compared: the laws have no effect when they run.
#[test]
fn names_laws(_rt: HostRuntime) {
    laws::one_reading();
    laws::one_spelling();
    laws::one_fault();
    laws::number_text();
    laws::redump();
    laws::strict_styles();
    laws::reads_back();
}
