//! Tests of the one form of errors.

use crate::common::{Tested, Tester, expect, expect_eq};
use jzon::{Error as TextError, Place, Reading};
use jzon_pointer::error::{Cause, Error, Expected, Found, Member, What};
use jzon_pointer::{PointerError, Reason};
use std::alloc::{AllocError, Global};
use std::io;

/// The message, and what `Debug` prints.
fn expect_text(rt: &impl Tester, error: &Error, text: &str) -> Result<(), AllocError> {
    let shown = format!(in rt.alloc(); "{error}")?;
    expect_eq(rt, text, shown.as_str(), text);
    let debug = format!(in rt.alloc(); "{error:?}")?;
    expect_eq(rt, text, debug.as_str(), text);
    Ok(())
}

/// An error with a pointer.
fn wrong(alloc: Global) -> Result<Error, AllocError> {
    let found = Found::String(String::from_str(alloc, "80")?);
    let expected = Expected::U16;
    let error = Error::new(alloc, What::Wrong { expected, found });
    Ok(
        error
            .below_key(alloc, "port")
            .below_index(alloc, 1)
            .below_key(alloc, "a/b~"),
    )
}

#[test]
fn shows_each_part(rt: HostRuntime) -> Tested {
    let error = wrong(rt.alloc())?;
    let message = "/a~1b~0/1/port: expected an integer from 0 to 65535, found \"80\"";
    expect_text(&rt, &error, message)?;
    expect_eq(&rt, "pointer", error.pointer(), "/a~1b~0/1/port");
    let words = format!(in rt.alloc(); "{}", error.words())?;
    let want = "expected an integer from 0 to 65535, found \"80\"";
    expect_eq(&rt, "words", words.as_str(), want);
    let copy = error.clone()?;
    expect(&rt, "clone", copy == error);
    Ok(())
}

#[test]
fn adds_parts(rt: HostRuntime) -> Tested {
    let place = Place {
        offset: 40,
        line: 4,
        column: 14,
    };
    let hidden = wrong(rt.alloc())?
        .without_value()
        .at_place(Some(place))
        .in_operation(3, None);
    expect(&rt, "differs", hidden != wrong(rt.alloc())?);
    let message =
        "operation 3: /a~1b~0/1/port: expected an integer from 0 to 65535, found a string at (4:14)";
    Ok(expect_text(&rt, &hidden, message)?)
}

#[test]
fn shows_pointers(rt: HostRuntime) -> Tested {
    let alloc = rt.alloc();
    let lost = PointerError::Missing {
        start: 3,
        end: 4,
        reason: Reason::NoMember,
    };
    let error = Error::at_pointer(alloc, "/a/b", What::Pointer(lost));
    expect_text(&rt, &error, "/a/b: /a has no key \"b\"")?;
    let error = error.in_operation(0, Some(Member::From));
    expect_text(
        &rt,
        &error,
        "operation 0: `from`: /a/b: /a has no key \"b\"",
    )?;
    let cause = What::Operation(Cause::Missing(Member::Value));
    let error = Error::at_pointer(alloc, "/x", cause).in_operation(2, None);
    expect_text(&rt, &error, "operation 2: /x: `value` is missing")?;
    Ok(())
}

/// Reads a text, fails, and has the text's own error through `?`.
fn read(rt: &impl Tester, text: &str) -> Result<jzon::JsonValue, Error> {
    Ok(jzon::parse_located(rt.alloc(), text, &Reading::STRICT)?)
}

/// Texts, and the messages of their errors.
const TEXTS: &[(&str, &str)] = &[
    ("[\n\n", "Unexpected end of JSON at (3:1)"),
    ("[1,\u{202e}]", "Unexpected character: \\u202e at (1:4)"),
    ("{\"a\":1,\n\"a\":2}", "Duplicate key at (2:1)"),
];

/// Words of a program, and how they are shown: as they are, unless one of their characters is hidden.
const WORDS: &[(&str, &str)] = &[
    ("\"debug\" or a\\b", "\"debug\" or a\\b"),
    ("\"a\u{202e}\"", "\\\"a\\u202e\\\""),
    (
        "\u{34f}\u{115f}\u{1160}\u{17b4}",
        "\\u034f\\u115f\\u1160\\u17b4",
    ),
    (
        "\u{180b}\u{180e}\u{2800}\u{3164}",
        "\\u180b\\u180e\\u2800\\u3164",
    ),
    (
        "\u{fe0f}\u{ffa0}\u{fff9}\u{fffb}",
        "\\ufe0f\\uffa0\\ufff9\\ufffb",
    ),
    (
        "\u{e0000}\u{e0100}\u{e0fff}",
        "\\udb40\\udc00\\udb40\\udd00\\udb43\\udfff",
    ),
    (
        "\u{13430}\u{1343f}\u{1bca0}\u{1d173}\u{1d17a}",
        "\\ud80d\\udc30\\ud80d\\udc3f\\ud82f\\udca0\\ud834\\udd73\\ud834\\udd7a",
    ),
    (
        "\u{1342f}\u{13440}\u{1bc9f}\u{1bca4}\u{1d172}\u{1d17b}",
        "\u{1342f}\u{13440}\u{1bc9f}\u{1bca4}\u{1d172}\u{1d17b}",
    ),
    (
        "\u{115e}\u{1161}\u{2801}\u{3165}\u{fe10}\u{fffd}",
        "\u{115e}\u{1161}\u{2801}\u{3165}\u{fe10}\u{fffd}",
    ),
];

#[test]
fn shows_texts(rt: HostRuntime) -> Tested {
    for (words, message) in WORDS {
        expect_text(&rt, &Error::new(rt.alloc(), What::Said(*words)), message)?;
    }
    for (text, message) in TEXTS {
        match read(&rt, text) {
            Ok(_value) => expect(&rt, text, false),
            Err(error) => expect_text(&rt, &error, message)?,
        }
    }
    expect_text(&rt, &Error::MEMORY, "Out of memory")?;
    let own = Error::from(TextError::InexactNumber { line: 7, column: 2 });
    expect_text(&rt, &own, "Number is not exact at (7:2)")?;
    let memory = io::Error::from(Error::from(TextError::OutOfMemory));
    expect_eq(&rt, "kind", memory.kind(), io::ErrorKind::OutOfMemory);
    Ok(())
}

/// Characters, and how each is shown.
const SHOWN: &[(&str, &str)] = &[
    ("\n", "\\n"),
    ("\u{7f}", "\\u007f"),
    ("\u{feff}", "\\ufeff"),
    ("\u{e0041}", "\\udb40\\udc41"),
    ("é", "é"),
];

/// What is a thousand times there is cut: no message is longer than 1,000 bytes.
#[test]
fn cuts(rt: HostRuntime) -> Tested {
    let alloc = rt.alloc();
    for (text, shown) in SHOWN {
        let mut long = String::new(alloc);
        let mut start = String::new(alloc);
        for index in 0..1000 {
            long.push_str(text)?;
            if index < 200 / shown.len() {
                start.push_str(shown)?;
            }
        }
        start.push_str("..")?;
        let error = Error::new(alloc, What::Custom(long.clone()?));
        expect_text(&rt, &error, start.as_str())?;
        let lost = PointerError::Missing {
            start: 1002,
            end: usize::MAX,
            reason: Reason::NoMember,
        };
        let error = Error::at_pointer(alloc, long.as_str(), What::Pointer(lost));
        let error = error
            .below_key(alloc, long.as_str())
            .in_operation(usize::MAX, Some(Member::Path));
        let message = format!(in alloc; "{error}")?;
        expect(&rt, text, message.len() <= 1000);
    }
    Ok(())
}
