//! What the tests share. To prove an assertion takes seconds, and a call of `expect` or `expect_eq`
//! hardly any time.

pub use jzon_test_support::{Tested, Tester};
use std::fmt::Debug;
use std::process::Abort;

/// It holds of this row.
pub fn expect(rt: &impl Abort, row: &str, holds: bool) {
    assert!(rt; holds, "{row}");
}

/// Both are equal, in this row.
pub fn expect_eq<T: Copy + PartialEq + Debug>(rt: &impl Abort, row: &str, found: T, want: T) {
    assert_eq!(rt; found, want, "{row}");
}
