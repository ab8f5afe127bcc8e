//! The messages of errors, and the `io::Error` that each becomes.

use crate::common::{expect, expect_display, expect_eq};
use jzon_base::error::Error;
use jzon_test_support::joined;
use std::io;
use std::io::ErrorKind::{InvalidData, OutOfMemory, UnexpectedEof};
use std::test::Fail;

fn unexpected(ch: char, line: usize, column: usize) -> Error {
    Error::UnexpectedCharacter { ch, line, column }
}

#[test]
fn messages(rt: HostRuntime) -> std::result::Result<(), Fail> {
    let rows = [
        (
            unexpected('X', 3, 4),
            "Unexpected character: X at (3:4)",
            InvalidData,
        ),
        (
            unexpected('\u{1F984}', usize::MAX, usize::MAX),
            "Unexpected character: \u{1F984} at (18446744073709551615:18446744073709551615)",
            InvalidData,
        ),
        (
            Error::UnexpectedEndOfJson,
            "Unexpected end of JSON",
            UnexpectedEof,
        ),
        (
            Error::ExceededDepthLimit,
            "Exceeded depth limit",
            InvalidData,
        ),
        (
            Error::FailedUtf8Parsing,
            "Failed to parse UTF-8 bytes",
            InvalidData,
        ),
        (Error::OutOfMemory, "Out of memory", OutOfMemory),
        (
            Error::DuplicateKey { line: 1, column: 8 },
            "Duplicate key at (1:8)",
            InvalidData,
        ),
        (
            Error::InexactNumber {
                line: 2,
                column: 15,
            },
            "Number is not exact at (2:15)",
            InvalidData,
        ),
        (
            Error::wrong_type(rt.alloc(), "Array")?,
            "Wrong type, expected: Array",
            InvalidData,
        ),
        (
            Error::wrong_type(rt.alloc(), "")?,
            "Wrong type, expected: ",
            InvalidData,
        ),
    ];
    for (error, message, kind) in rows {
        expect_display(&rt, rt.alloc(), &error, message)?;
        expect(&rt, message, error.clone()? == error);
        let raised = io::Error::from(error);
        expect_eq(&rt, message, raised.kind(), kind);
        let kept = format!(in rt.alloc(); "{raised}")?;
        expect_eq(&rt, message, kept.as_str(), message);
    }
    Ok(())
}

/// The word of `WrongType` may be any. An `io::Error` has the first 77 bytes of the message, and
/// dots.
#[test]
fn keeps_a_long_word(rt: HostRuntime) -> std::result::Result<(), Fail> {
    let word = joined(rt.alloc(), &[("Number or null", 10_000)])?;
    let error = Error::wrong_type(rt.alloc(), word.as_str())?;
    let message = joined(
        rt.alloc(),
        &[("Wrong type, expected: ", 1), (word.as_str(), 1)],
    )?;
    expect_display(&rt, rt.alloc(), &error, message.as_str())?;
    match &error {
        Error::WrongType(words) => expect(&rt, "the word", words.as_str() == word.as_str()),
        _ => expect(&rt, "another error", false),
    }
    let raised = format!(in rt.alloc(); "{}", io::Error::from(error))?;
    expect_eq(
        &rt,
        "too long",
        raised.as_str(),
        "Wrong type, expected: Number or nullNumber or nullNumber or nullNumber or nul...",
    );
    Ok(())
}
