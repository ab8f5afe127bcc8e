//! Keys and their positions, and hashes of keys.

use crate::common::{expect, expect_eq};
use jzon_base::key::Key;
use jzon_base::keys::hash::hash_of;
use jzon_base::keys::{Iter, Keys};
use jzon_test_support::digits_below;
use std::alloc::{AllocError, Global};
use std::process::Abort;

/// Puts a key, with no value to make room for.
fn put(alloc: Global, keys: &mut Keys, name: &str) -> Result<Option<usize>, AllocError> {
    let mut values: Vec<u8> = Vec::new(alloc);
    keys.put(alloc, &mut values, name)
}

/// The keys of these names, each put once.
fn of_names(alloc: Global, names: &[&str]) -> Result<Keys, AllocError> {
    let mut keys = Keys::new(alloc);
    for name in names {
        put(alloc, &mut keys, name)?;
    }
    Ok(keys)
}

/// The keys are these, in this order, and "d" isn't among them.
fn expect_names(rt: &impl Abort, keys: &Keys, names: &[&str]) {
    expect_eq(rt, "the number of keys", keys.len(), names.len());
    for (index, name) in names.iter().enumerate() {
        expect_eq(rt, name, keys.position(name), Some(index));
        expect(rt, name, index < keys.len() && keys.get(index) == *name);
    }
    expect_eq(rt, "d", keys.position("d"), None);
}

/// A copy of the keys, without the one at this index.
fn without(alloc: Global, keys: &Keys, index: usize) -> Result<Keys, AllocError> {
    let mut left = keys.clone(alloc)?;
    if index < left.len() {
        left.remove(index);
    }
    Ok(left)
}

#[test]
fn changes_a_copy(rt: HostRuntime) -> Result<(), AllocError> {
    let whole = of_names(rt.alloc(), &["c", "a", "", "b", "a"])?;
    let mut left = without(rt.alloc(), &whole, 1)?;
    expect_names(&rt, &left, &["c", "", "b"]);
    left.clear();
    expect_names(&rt, &left, &[]);
    expect_names(&rt, &whole, &["c", "a", "", "b"]);
    Ok(())
}

#[test]
fn puts_a_key_once(rt: HostRuntime) -> Result<(), AllocError> {
    let mut keys = Keys::with_capacity(rt.alloc(), 3)?;
    expect_eq(&rt, "a", put(rt.alloc(), &mut keys, "a")?, None);
    expect_eq(&rt, "b", put(rt.alloc(), &mut keys, "b")?, None);
    expect_eq(&rt, "b again", put(rt.alloc(), &mut keys, "b")?, Some(1));
    expect_names(&rt, &keys, &["a", "b"]);
    Ok(())
}

/// Two texts of one hash.
const ONE: &str = "8yn0iYCKYHlIj4-BwPqk";

const OTHER: &str = "GReLUrM4wMqfg9yzV3KQ";

#[test]
fn tells_keys_of_one_hash_apart(rt: HostRuntime) -> Result<(), AllocError> {
    expect_eq(&rt, "the hash", hash_of(ONE), hash_of(OTHER));
    let keys = of_names(rt.alloc(), &["a", OTHER, ONE, "b"])?;
    expect_names(&rt, &keys, &["a", OTHER, ONE, "b"]);
    let left = without(rt.alloc(), &keys, 1)?;
    expect_names(&rt, &left, &["a", ONE, "b"]);
    expect_eq(&rt, OTHER, left.position(OTHER), None);
    Ok(())
}

#[test]
fn goes_over_keys_from_both_ends(rt: HostRuntime) -> Result<(), AllocError> {
    let keys = of_names(rt.alloc(), &["a", "b", "c"])?;
    let mut names = keys.iter();
    expect_eq(&rt, "the first", names.next(), Some("a"));
    expect_eq(&rt, "the last", names.next_back(), Some("c"));
    expect_eq(&rt, "how many are left", names.len(), 1);
    expect_eq(&rt, "the one between", names.next(), Some("b"));
    expect_eq(&rt, "no more", names.next_back(), None);
    expect_eq(&rt, "none", Iter::empty().next(), None);
    Ok(())
}

/// More keys than 16 bits can count.
#[test]
fn puts_many_keys(rt: HostRuntime) -> Result<(), AllocError> {
    let names = digits_below(rt.alloc(), 70_000)?;
    let mut keys = Keys::new(rt.alloc());
    for name in &names {
        put(rt.alloc(), &mut keys, name.as_str())?;
    }
    let copy = keys.clone(rt.alloc())?;
    for keys in [&keys, &copy] {
        expect_eq(&rt, "the number of keys", keys.len(), names.len());
        for (index, name) in names.iter().enumerate() {
            let position = keys.position(name.as_str());
            expect_eq(&rt, name.as_str(), position, Some(index));
        }
    }
    Ok(())
}

const HASHES: &[(&str, u64)] = &[
    ("77kepQFQ8Kl", 0),
    ("77kepQFQ8Kl\0\0GhL ,\u{8}\u{1b}s\u{5}\u{18}\0", 0),
    ("", 0xcbf2_9ce4_8422_2325),
    ("a", 0xaf63_dc4c_8601_ec8c),
    ("foobar", 0x8594_4171_f739_67e8),
];

#[test]
fn hashes_texts(rt: HostRuntime) {
    for (text, want) in HASHES {
        expect_eq(&rt, text, hash_of(text), *want);
    }
}
