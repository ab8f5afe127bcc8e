//! What the tests compare by. To prove an assertion takes seconds, and a call of one of these hardly
//! any time.

use jzon::{Error, JsonValue, LocatedError, Reading, parse, parse_as};
use std::alloc::Global;
use std::fmt::Debug;
use std::process::Abort;

/// It holds of this row.
pub fn expect(rt: &impl Abort, row: &str, holds: bool) {
    assert!(rt; holds, "{row}");
}

/// Both are equal, in this row.
pub fn expect_eq<T: Copy + PartialEq + Debug>(rt: &impl Abort, row: &str, found: T, want: T) {
    assert_eq!(rt; found, want, "{row}");
}

/// The call returned this text. These return no error, as each `?` of a test takes seconds to prove
/// too.
pub fn expect_same<E: Drop>(
    rt: &impl Abort,
    row: &str,
    found: std::result::Result<String, E>,
    want: &str,
) {
    match found {
        Ok(found) => expect_eq(rt, row, found.as_str(), want),
        Err(_) => expect(rt, row, false),
    }
}

/// The value dumps this text.
pub fn expect_dump(rt: &impl Abort, alloc: Global, value: &JsonValue, dump: &str) {
    expect_same(rt, dump, value.dump(alloc), dump);
}

/// What the text means dumps `dump`.
pub fn expect_read(rt: &impl Abort, alloc: Global, text: &str, dump: &str) {
    match parse(alloc, text) {
        Ok(value) => expect_dump(rt, alloc, &value, dump),
        Err(_) => expect(rt, text, false),
    }
}

/// What the text means by a reading of this strictness and depth.
pub fn read(alloc: Global, strict: bool, depth: u16, text: &str) -> jzon::Result<JsonValue> {
    match Reading::new(strict, depth) {
        Some(reading) => parse_as(alloc, text, &reading),
        None => Err(Error::OutOfMemory),
    }
}

/// The outcome is an error with this message.
pub fn expect_rejected(
    rt: &impl Abort,
    alloc: Global,
    row: &str,
    outcome: jzon::Result<JsonValue>,
    message: &str,
) {
    match outcome {
        Ok(_) => expect(rt, row, false),
        Err(error) => expect_same(rt, row, error.to_string(alloc), message),
    }
}

/// The error has these words and this place.
pub fn expect_located(
    rt: &impl Abort,
    alloc: Global,
    located: &LocatedError,
    words: &str,
    place: Option<(usize, usize, usize)>,
) {
    let found = located
        .place
        .map(|place| (place.offset, place.line, place.column));
    expect_eq(rt, words, found, place);
    expect_same(rt, words, located.to_string(alloc), words);
}
