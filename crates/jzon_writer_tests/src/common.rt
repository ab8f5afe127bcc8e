//! What the tests share. To prove an assertion takes seconds, and a call of `expect` or `expect_eq`
//! hardly any time.

use jzon::Result;
use jzon_test_support::Trouble;
pub use jzon_test_support::{Tested, Tester};
use std::fmt::Debug;
use std::io;
use std::process::Abort;

/// It holds of this row.
pub fn expect(rt: &impl Abort, row: &str, holds: bool) {
    assert!(rt; holds, "{row}");
}

/// Both are equal, in this row.
pub fn expect_eq<T: Copy + PartialEq + Debug>(rt: &impl Abort, row: &str, found: T, want: T) {
    assert_eq!(rt; found, want, "{row}");
}

/// The bytes are those of this text.
pub fn expect_bytes(rt: &impl Abort, bytes: &[u8], text: &str) {
    expect_eq(rt, text, bytes, text.as_bytes());
}

/// The call returned this text.
pub fn is_text(found: Result<String>, text: &str) -> bool {
    match found {
        Ok(found) => found.as_str() == text,
        Err(_) => false,
    }
}

/// The call failed with this error.
pub fn expect_trouble(rt: &impl Tester, outcome: io::Result<()>, trouble: Trouble) -> Tested {
    match outcome {
        Ok(()) => expect(rt, "no error", false),
        Err(error) => expect(rt, "the error", trouble.is_returned(rt.alloc(), &error)?),
    }
    Ok(())
}
