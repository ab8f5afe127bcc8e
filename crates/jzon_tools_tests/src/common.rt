//! What the tests share. To prove an assertion takes seconds, and a call of `expect` or `expect_eq`
//! hardly any time.

use jzon::JsonValue;
use jzon_pointer::error::Error;
pub use jzon_test_support::{Tested, Tester};
use std::fmt::Debug;
use std::io;
use std::io::ErrorKind;
use std::process::Abort;

/// It holds of this row.
pub fn expect(rt: &impl Abort, row: &str, holds: bool) {
    assert!(rt; holds, "{row}");
}

/// Both are equal, in this row.
pub fn expect_eq<T: Copy + PartialEq + Debug>(rt: &impl Abort, row: &str, found: T, want: T) {
    assert_eq!(rt; found, want, "{row}");
}

/// The value dumps this text.
pub fn expect_dump(rt: &impl Tester, value: &JsonValue, text: &str) {
    match value.dump(rt.alloc()) {
        Ok(dump) => expect_eq(rt, text, dump.as_str(), text),
        Err(_) => expect(rt, text, false),
    }
}

/// The error's message is this text.
pub fn expect_message(rt: &impl Tester, row: &str, error: &Error, text: &str) -> Tested {
    let message = format!(in rt.alloc(); "{error}")?;
    expect_eq(rt, row, message.as_str(), text);
    Ok(())
}

/// It fails, with this message.
pub fn expect_refused<T: Drop>(
    rt: &impl Tester,
    row: &str,
    outcome: Result<T, Error>,
    text: &str,
) -> Tested {
    match outcome {
        Ok(_done) => Err("no error".into()),
        Err(error) => expect_message(rt, row, &error, text),
    }
}

/// The error is raised as an `io::Error` of this kind, with this message.
pub fn expect_raised(
    rt: &impl Tester,
    row: &str,
    error: Error,
    kind: ErrorKind,
    text: &str,
) -> Tested {
    let raised = io::Error::from(error);
    expect_eq(rt, row, raised.kind(), kind);
    let message = format!(in rt.alloc(); "{raised}")?;
    expect_eq(rt, row, message.as_str(), text);
    Ok(())
}
