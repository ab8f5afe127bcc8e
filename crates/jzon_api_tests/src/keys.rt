//! Many keys, and keys that are hostile to an index over hashes.

use crate::common::{Tested, Tester, expect, expect_eq, is_entry};
use jzon::object::Object;
use jzon::{JsonValue, Reading, parse_as};
use jzon_test_support::{KEY_ORDERS, keys_in, keys_of_one_hash, object_text};
use std::alloc::{AllocError, Global};

/// The object of these keys has each of them, and no other.
fn expect_keys(rt: &impl Tester, keys: &[String]) -> Tested {
    let text = object_text(rt.alloc(), keys)?;
    for reading in [Reading::USUAL, Reading::STRICT] {
        let value = parse_as(rt.alloc(), text.as_str(), &reading)?;
        expect_eq(rt, "the number of keys", value.len(), keys.len());
        let found = keys
            .iter()
            .filter(|key| value.has_key(key.as_str()))
            .count();
        expect_eq(rt, "the keys that are found", found, keys.len());
        expect(rt, "another", !value.has_key("another"));
    }
    Ok(())
}

#[test]
fn finds_keys_in_each_order(rt: HostRuntime) -> Tested {
    for order in KEY_ORDERS {
        expect_keys(&rt, &keys_in(rt.alloc(), *order, 100000)?)?;
    }
    Ok(())
}

#[test]
fn finds_keys_of_one_hash(rt: HostRuntime) -> Tested {
    expect_keys(&rt, &keys_of_one_hash(rt.alloc(), 2000)?)
}

/// Inserts the keys into an empty object, and looks for each.
fn fill(rt: &impl Tester, object: &mut Object, keys: &[String]) -> Tested {
    for key in keys {
        object.insert(rt.alloc(), key.as_str(), JsonValue::Null)?;
    }
    let found = keys
        .iter()
        .filter(|key| object.get(key.as_str()).is_some())
        .count();
    expect_eq(rt, "keys", (object.len(), found), (keys.len(), keys.len()));
    Ok(())
}

/// With the room that it kept, a cleared object takes no more time than a new one: 700,000 keys that
/// were moved one by one would take more than a minute.
#[test]
fn fills_a_cleared_object(rt: HostRuntime) -> Tested {
    for order in KEY_ORDERS {
        let keys = keys_in(rt.alloc(), *order, 700000)?;
        let mut object = Object::new(rt.alloc());
        fill(&rt, &mut object, keys.as_slice())?;
        object.clear();
        fill(&rt, &mut object, keys.as_slice())?;
    }
    Ok(())
}

fn key(alloc: Global, number: u64) -> Result<String, AllocError> {
    format!(in alloc; "k{number}")
}

/// The keys `k0` to `k999`, each with its number.
fn a_thousand(alloc: Global) -> jzon::Result<Object> {
    let mut object = Object::new(alloc);
    for number in 0..1000 {
        object.insert(alloc, key(alloc, number)?.as_str(), JsonValue::from(number))?;
    }
    Ok(object)
}

/// Removes those of even numbers, in ascending order.
fn remove_even(rt: &impl Tester, object: &mut Object) -> Tested {
    for number in (0..1000).step_by(2) {
        let name = key(rt.alloc(), number)?;
        let removed = object.remove(name.as_str()).unwrap_or(JsonValue::Null);
        expect(rt, name.as_str(), removed.eq_u64(number));
    }
    Ok(())
}

/// Those of odd numbers are left, in order, and found.
fn expect_odd(rt: &impl Tester, object: &Object) -> Tested {
    let mut entries = object.iter();
    for number in (1..1000).step_by(2) {
        let name = key(rt.alloc(), number)?;
        let is_next = is_entry(entries.next(), name.as_str(), number);
        expect(rt, name.as_str(), is_next);
    }
    expect(rt, "no more", entries.next().is_none());
    for number in 0..1000 {
        let name = key(rt.alloc(), number)?;
        let is_there = object.get(name.as_str()).is_some();
        expect_eq(rt, name.as_str(), is_there, number % 2 == 1);
    }
    Ok(())
}

#[test]
fn keeps_a_thousand_keys(rt: HostRuntime) -> Tested {
    let alloc = rt.alloc();
    let mut object = a_thousand(alloc)?;
    remove_even(&rt, &mut object)?;
    expect_odd(&rt, &object)?;
    object.insert(alloc, "k0", JsonValue::Null)?;
    let is_last = object.iter().next_back() == Some(("k0", &JsonValue::Null));
    expect(&rt, "the last key", is_last);
    expect_eq(&rt, "the number of keys", object.len(), 501);
    Ok(())
}
