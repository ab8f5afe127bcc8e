//! Short strings and keys, which hold a string.

use crate::common::{expect, expect_display, expect_eq};
use jzon_base::key::Key;
use jzon_base::short::{MAX_LEN, Short};
use jzon_test_support::joined;
use std::alloc::Global;
use std::process::Abort;
use std::test::Fail;

/// Texts of up to 30 bytes, the longest that a key keeps inline, of 32 bytes, and a longer one.
const TEXTS: &[&str] = &[
    "",
    "a\"b",
    "\0",
    "a",
    "ab",
    "é",
    "abcdefghijklmnopqrstuvwxyz0123",
    "ééééééééééééééé",
    "0123456789abcdef0123456789abcdef",
    "0123456789abcdef0123456789abcdef!",
];

/// A short string of this text, of at most 30 bytes, is kept, shown in one piece and given whole.
fn expect_short(rt: &impl Abort, alloc: Global, text: &str) -> Result<(), Fail> {
    if text.len() > MAX_LEN {
        return Ok(());
    }
    let short = Short::from_slice(text);
    expect_eq(rt, text, short.as_str(), text);
    let is_same = short == Short::from_slice(text) && short.eq_str(text);
    expect(rt, text, is_same);
    expect_eq(rt, text, expect_display(rt, alloc, &short, text)?, 1);
    let string = short.into_string(alloc)?;
    expect_eq(rt, "into_string", string.as_str(), text);
    Ok(())
}

/// So is a key, but it isn't shown.
fn expect_key(rt: &impl Abort, alloc: Global, text: &str) -> Result<(), Fail> {
    let key = Key::new(alloc, text)?;
    expect_eq(rt, text, key.as_str(), text);
    expect(rt, text, key == Key::new(alloc, text)?);
    expect(rt, text, key != Key::new(alloc, "other")?);
    let mut keys = Vec::new(alloc);
    Key::push_wide(&mut keys, alloc, text, text)?;
    expect(rt, text, keys.len() == 1 && keys[0] == key);
    for key in [key.clone(alloc)?, key] {
        let string = key.into_string(alloc)?;
        expect_eq(rt, text, string.as_str(), text);
    }
    Ok(())
}

/// Also of each length up to more than is kept inline, and far longer.
#[test]
fn keeps_strings(rt: HostRuntime) -> Result<(), Fail> {
    for text in TEXTS {
        expect_short(&rt, rt.alloc(), text)?;
        expect_key(&rt, rt.alloc(), text)?;
    }
    for len in (0..70).chain([1000usize, 70_000, 200_000]) {
        let text = joined(rt.alloc(), &[("s", len)])?;
        expect_short(&rt, rt.alloc(), text.as_str())?;
        expect_key(&rt, rt.alloc(), text.as_str())?;
    }
    Ok(())
}

const OTHERS: &[&str] = &["", "ab", "abd", "abcd", "Abc", "abc\0"];

#[test]
fn tells_strings_apart(rt: HostRuntime) {
    let short = Short::from_slice("abc");
    for other in OTHERS {
        expect(&rt, other, !short.eq_str(other));
    }
    expect(&rt, "abd", short != Short::from_slice("abd"));
}

#[test]
fn debug_is_quoted(rt: HostRuntime) -> Result<(), Fail> {
    let short = Short::from_slice("a\"b\n");
    let key = Key::new(rt.alloc(), "a\"b")?;
    let shown = format!(in rt.alloc(); "{short:?} {key:?}")?;
    expect_eq(&rt, "Debug", shown.as_str(), "\"a\\\"b\\n\" \"a\\\"b\"");
    Ok(())
}
