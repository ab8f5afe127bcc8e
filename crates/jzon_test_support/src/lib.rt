//! Shared by the tests of several crates: runs with failing allocations, a writer and a formatter
//! that fail, long texts, hostile keys, a sample text, and values of each kind.
#![tactic(auto)]

mod failing_formatter;
mod keys;
mod refusals;
mod slow_writer;
mod values;

pub use failing_formatter::{FailingFormatter, show_failing};
pub use keys::{
    KEY_ORDERS, KeyOrder, digits_below, keys_by_hash, keys_in, keys_of_one_hash, object_text,
};
pub use refusals::{RUNS_MAX, Refusals};
pub use slow_writer::{FAILURES, NO_FAILING_CALL, SlowWriter, Trouble, WORDS, is_same_error};
use std::alloc::{AllocError, AllocGlobal, Global};
use std::process::Abort;
use std::test::Fail;
pub use values::{EACH_KIND, Unconvertible, each_unread, long, number, parts};

/// What a test returns, and what checks a part of it.
pub type Tested = Result<(), Fail>;

/// The runtime of a test, which may abort it and gives its allocator.
pub trait Tester: Abort + AllocGlobal {}

impl<R: Abort + AllocGlobal> Tester for R {}

/// A JSON text with a value of each kind but a boolean.
pub const DOCUMENT: &str = "{\"a\":[1,-0.5e+2,\"x\\u00e9\\uD834\\uDD1E\"],\"b\":null}";

/// What its value dumps as.
pub const DUMP: &str = "{\"a\":[1,-50,\"xé\u{1d11e}\"],\"b\":null}";

/// What its value prints on lines, with two spaces for each open container.
pub const PRETTY: &str =
    "{\n  \"a\": [\n    1,\n    -50,\n    \"xé\u{1d11e}\"\n  ],\n  \"b\": null\n}";

/// The rows of a table, each on a line of its own.
#[macro_export]
macro_rules! rows {
    ($($row:tt)*) => { &[$($row),*] };
}

/// Concatenates texts, each repeated as often as its number says.
pub fn joined(alloc: Global, parts: &[(&str, usize)]) -> Result<String, AllocError> {
    let mut text = String::new(alloc);
    for (part, count) in parts {
        for _ in 0..*count {
            text.push_str(part)?;
        }
    }
    Ok(text)
}

/// How a text begins, and then pieces, each with how often it comes and what comes once after it.
pub type Long = (&'static str, &'static [(&'static str, usize, &'static str)]);

/// The whole text.
pub fn spelled(alloc: Global, text: &Long) -> Result<String, AllocError> {
    let mut whole = String::from_str(alloc, text.0)?;
    for (piece, count, next) in text.1 {
        whole.push_str(joined(alloc, &[(piece, *count), (next, 1)])?.as_str())?;
    }
    Ok(whole)
}
