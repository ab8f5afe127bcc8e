//! What the tests share. To prove an assertion takes seconds, and a call of `expect` or `expect_eq`
//! hardly any time.

use jzon::object::Object;
use jzon::{IntoJson, JsonValue, Result, parse};
use jzon_test_support::EACH_KIND;
pub use jzon_test_support::{Tested, Tester, each_unread, long, number, parts};
use std::alloc::Global;
use std::fmt::Debug;
use std::process::Abort;

/// It holds of this row.
pub fn expect(rt: &impl Abort, row: &str, holds: bool) {
    assert!(rt; holds, "{row}");
}

/// Both are equal, in this row.
pub fn expect_eq<T: Copy + PartialEq + Debug>(rt: &impl Abort, row: &str, found: T, want: T) {
    assert_eq!(rt; found, want, "{row}");
}

/// Values of each kind, each with its compact text.
pub fn each_value(alloc: Global) -> Result<Vec<(&'static str, JsonValue)>> {
    let mut values = Vec::new(alloc);
    for text in EACH_KIND {
        values.push((*text, parse(alloc, text)?))?;
    }
    for unread in each_unread(alloc)? {
        values.push(unread)?;
    }
    Ok(values)
}

/// The value dumps this text. A failed allocation is no error to return: each `?` of a test takes
/// seconds to prove.
pub fn expect_dump(rt: &impl Tester, value: &JsonValue, text: &str) {
    expect_same(rt, value.dump(rt.alloc()), text);
}

/// The object dumps this text, and is empty only if that is `{}`.
pub fn expect_text(rt: &impl Tester, object: &Object, text: &str) {
    expect_same(rt, object.dump(rt.alloc()), text);
    expect_eq(rt, text, object.is_empty(), text == "{}");
}

/// The source converts into the value of this text.
pub fn expect_converted<T: IntoJson>(rt: &impl Abort, alloc: Global, source: T, text: &str) {
    match source.into_json(alloc) {
        Ok(value) => expect_same(rt, value.dump(alloc), text),
        Err(_) => expect(rt, text, false),
    }
}

/// The call returned this text.
pub fn expect_same<E: Drop>(rt: &impl Abort, found: std::result::Result<String, E>, text: &str) {
    match found {
        Ok(found) => expect_eq(rt, text, found.as_str(), text),
        Err(_) => expect(rt, text, false),
    }
}

/// Whether it is an entry of this key and this number.
pub fn is_entry(entry: Option<(&str, &JsonValue)>, key: &str, number: u64) -> bool {
    match entry {
        Some((name, value)) => name == key && value.eq_u64(number),
        None => false,
    }
}
