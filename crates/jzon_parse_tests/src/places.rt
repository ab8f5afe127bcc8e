//! Errors with their places, as `parse_located` returns them.

use crate::common::{expect, expect_eq, expect_located};
use jzon::{Error, JsonValue, LocatedError, Place, Reading, parse_located};
use jzon_test_support::{Long, RUNS_MAX, Refusals, rows, spelled};
use std::alloc::Global;
use std::io::{self, ErrorKind};
use std::process::Abort;
use std::test::Fail;

/// Whether the reading is strict, its depth, a text, the words that the error is printed as, and
/// the offset, line and column of its place.
const PLACED: &[(bool, u16, Long, &str, (usize, usize, usize))] = rows! {
    (false, 512, ("x", &[]), "Unexpected character: x at (1:1)", (0, 1, 1))
    (false, 512, ("[1 é]", &[]), "Unexpected character: é at (1:4)", (3, 1, 4))
    (false, 512, ("[\"é漢\u{1f984}\" x]", &[]), "Unexpected character: x at (1:8)", (13, 1, 8))
    (false, 512, ("[\n\"é\",\n x]", &[]), "Unexpected character: x at (3:2)", (9, 3, 2))
    (false, 512, ("", &[]), "Unexpected end of JSON at (1:1)", (0, 1, 1))
    (false, 512, ("[\"é", &[]), "Unexpected end of JSON at (1:4)", (4, 1, 4))
    (true, 512, ("[1,\n", &[]), "Unexpected end of JSON at (2:1)", (4, 2, 1))
    (false, 512, ("\n\n{\"漢\":", &[]), "Unexpected end of JSON at (3:6)", (9, 3, 6))
    (false, 0, ("[1]", &[]), "Exceeded depth limit at (1:2)", (1, 1, 2))
    (true, 0, ("[ \n 1]", &[]), "Exceeded depth limit at (2:2)", (4, 2, 2))
    (false, 0, ("{x", &[]), "Exceeded depth limit at (1:2)", (1, 1, 2))
    (false, 1, ("[\"é漢\u{1f984}\",[ x", &[]), "Exceeded depth limit at (1:10)", (15, 1, 10))
    (false, 512, ("", &[("[", 513, "1")]), "Exceeded depth limit at (1:514)", (513, 1, 514))
    (false, 512, ("8", &[("0", 32786, "")]), "Exceeded depth limit at (1:32787)", (32786, 1, 32787))
    (false, 512, ("[\"é\",8", &[("0", 40000, ".5")]), "Exceeded depth limit at (1:32792)", (32792, 1, 32792))
    (true, 512, ("\n-8", &[("0", 40000, "e-40000")]), "Exceeded depth limit at (2:32788)", (32788, 2, 32788))
    (false, 512, ("0.", &[("0", 32769, "")]), "Exceeded depth limit at (1:32771)", (32770, 1, 32771))
    (false, 512, ("[1.5, -0.", &[("0", 40000, "ex")]), "Exceeded depth limit at (1:32778)", (32777, 1, 32778))
    (false, 512, ("\"\\ud800\\u0041\"", &[]), "Failed to parse UTF-8 bytes at (1:13)", (12, 1, 13))
    (false, 512, ("\"é\\uDC00\\uDC00", &[]), "Failed to parse UTF-8 bytes at (1:14)", (14, 1, 14))
    (true, 512, ("[\n{\"\\ud800\\ud800x", &[]), "Failed to parse UTF-8 bytes at (2:14)", (15, 2, 14))
    (true, 512, ("{\"a\":1,\"a\":2}", &[]), "Duplicate key at (1:8)", (7, 1, 8))
    (true, 512, ("{\"é\":1,\n\"\\u00e9\":2}", &[]), "Duplicate key at (2:1)", (9, 2, 1))
    (true, 512, ("[\"漢\u{1f984}\",{\"é\":1,\"é\"", &[]), "Duplicate key at (1:14)", (19, 1, 14))
};

/// The same for exact readings. Of 1 and zeros, 20 digits are kept.
const PLACED_EXACTLY: &[(bool, u16, Long, &str, (usize, usize, usize))] = rows! {
    (false, 512, ("[\"é漢\u{1f984}\",\n1e32768", &[]), "Number is not exact at (2:7)", (20, 2, 7))
    (true, 1, ("{\"é\": -18446744073709551616", &[]), "Number is not exact at (1:27)", (27, 1, 27))
    // The first fault counts, and at one digit too many the limit.
    (false, 512, ("18446744073709551616x", &[]), "Number is not exact at (1:20)", (19, 1, 20))
    (false, 512, ("18446744073709551615x", &[]), "Unexpected character: x at (1:21)", (20, 1, 21))
    (true, 512, ("[1.0000000000000000000001.", &[]), "Number is not exact at (1:25)", (24, 1, 25))
    (false, 512, ("1e32768", &[("0", 5, "e")]), "Number is not exact at (1:7)", (6, 1, 7))
    (false, 512, ("1e3276e", &[]), "Unexpected character: e at (1:7)", (6, 1, 7))
    (true, 512, ("1.00000000000000000000e", &[]), "Unexpected end of JSON at (1:24)", (23, 1, 24))
    (false, 0, ("[18446744073709551616]", &[]), "Exceeded depth limit at (1:2)", (1, 1, 2))
    (true, 512, ("{\"a\":1,\"a\":1e32768}", &[]), "Duplicate key at (1:8)", (7, 1, 8))
    (true, 512, ("{\"a\":1e32768,\"a\":1}", &[]), "Number is not exact at (1:12)", (11, 1, 12))
    (false, 512, ("[\"\\uDC00\\uDC00\",1e32768]", &[]), "Failed to parse UTF-8 bytes at (1:14)", (13, 1, 14))
    (false, 512, ("1", &[("0", 32786, "1")]), "Exceeded depth limit at (1:32788)", (32787, 1, 32788))
    (true, 512, ("1", &[("0", 32785, "11")]), "Number is not exact at (1:32787)", (32786, 1, 32787))
    (false, 512, ("1", &[("0", 32787, ".1")]), "Exceeded depth limit at (1:32788)", (32787, 1, 32788))
    (false, 512, ("0.", &[("0", 32749, "184467440737095516151")]), "Exceeded depth limit at (1:32771)", (32770, 1, 32771))
    (false, 512, ("0.", &[("0", 32769, "e99999")]), "Exceeded depth limit at (1:32771)", (32770, 1, 32771))
};

/// The reading of this strictness and depth.
fn reading_of(strict: bool, depth: u16, exact: bool) -> Option<Reading> {
    let reading = Reading::new(strict, depth)?;
    Some(if exact {
        reading.with_exact_numbers()
    } else {
        reading
    })
}

/// The error of a text, if the reading rejects the text.
fn error_of(alloc: Global, text: &str, reading: &Reading) -> Option<LocatedError> {
    match parse_located(alloc, text, reading) {
        Ok(_) => None,
        Err(located) => Some(located),
    }
}

#[test]
fn locates_errors(rt: HostRuntime) -> Result<(), Fail> {
    let alloc = rt.alloc();
    for (table, exact) in [(PLACED, false), (PLACED_EXACTLY, true)] {
        for (strict, depth, text, words, place) in table {
            let text = spelled(alloc, text)?;
            let reading = reading_of(*strict, *depth, exact);
            match reading.and_then(|reading| error_of(alloc, text.as_str(), &reading)) {
                Some(located) => expect_located(&rt, alloc, &located, words, Some(*place)),
                None => expect(&rt, words, false),
            }
        }
    }
    Ok(())
}

/// Each allocation fails in turn, which has no place. Then the text is rejected at its place.
fn locate_under_refusals(
    rt: &impl Abort,
    alloc: Global,
    text: &str,
    reading: &Reading,
    place: (usize, usize, usize),
) -> Result<Refusals, Fail> {
    let mut refusals = Refusals::new(alloc);
    for _ in 0..RUNS_MAX {
        refusals.open();
        refusals.begin();
        let located = error_of(alloc, text, reading);
        let has_failed = refusals.has_failed();
        let is_of_memory = located
            .as_ref()
            .is_some_and(|located| matches!(located.error, Error::OutOfMemory));
        let found = located
            .and_then(|located| located.place)
            .map(|place| (place.offset, place.line, place.column));
        refusals.close();
        expect(rt, text, is_of_memory == has_failed);
        expect_eq(rt, text, found, if has_failed { None } else { Some(place) });
        if !has_failed {
            break;
        }
    }
    refusals.expect_even()?;
    Ok(refusals)
}

/// Errors of each kind.
#[test]
fn places_under_refusals(rt: HostRuntime) -> Result<(), Fail> {
    let alloc = rt.alloc();
    for (table, exact) in [(PLACED, false), (PLACED_EXACTLY, true)] {
        for (strict, depth, text, words, place) in table {
            let text = spelled(alloc, text)?;
            match reading_of(*strict, *depth, exact) {
                Some(reading) => {
                    locate_under_refusals(&rt, alloc, text.as_str(), &reading, *place)?;
                }
                None => expect(&rt, words, false),
            }
        }
    }
    let text = "[[\"a text of more than thirty bytes\"],\n1e32768";
    let reading = Reading::STRICT.with_exact_numbers();
    let refusals = locate_under_refusals(&rt, alloc, text, &reading, (45, 2, 7))?;
    refusals.report(&rt, "parse_located", 5)?;
    Ok(())
}

/// The line and the column after a prefix, character by character.
fn place_after(prefix: &str) -> (usize, usize) {
    let mut place = (1usize, 1usize);
    for ch in prefix.chars() {
        place = if ch == '\n' {
            (place.0.saturating_add(1), 1)
        } else {
            (place.0, place.1.saturating_add(1))
        };
    }
    place
}

/// Texts that end in mid-string, of each length from 0 to 99 characters: with a newline in any place
/// or in none, before a character of each width.
#[test]
fn counts_many_bytes_at_once(rt: HostRuntime) -> Result<(), Fail> {
    let alloc = rt.alloc();
    for ch in [' ', '\u{8a}', '\u{10a}', '\u{a0a}', '\u{1000a}'] {
        for newlines in [0usize, 1, 7, 40] {
            let mut text = String::new(alloc);
            for index in 0..100usize {
                let place = place_after(text.as_str());
                let found = error_of(alloc, text.as_str(), &Reading::USUAL)
                    .and_then(|located| located.place)
                    .map(|place| (place.offset, place.line, place.column));
                let wanted = (text.len(), place.0, place.1);
                if ch == ' ' || index == 0 {
                    expect_eq(&rt, "spaces", found, Some(wanted));
                } else {
                    expect(&rt, "a character", found.is_some());
                }
                let is_newline = newlines > 0 && index.checked_rem(newlines) == Some(0);
                text.push(if is_newline { '\n' } else { ' ' })?;
            }
            let start = text.len();
            text.push('"')?;
            for _ in 0..100usize {
                text.push(ch)?;
                let place = place_after(text.as_str());
                let found = error_of(alloc, text.as_str(), &Reading::USUAL)
                    .and_then(|located| located.place)
                    .map(|place| (place.offset, place.line, place.column));
                let wanted = (text.len(), place.0, place.1);
                expect_eq(&rt, "in a string", found, Some(wanted));
            }
            expect(&rt, "a string", text.len() > start);
        }
    }
    Ok(())
}

/// A text, an offset in bytes, and the line and the column there, if a character or the end is there.
const AT: &[(&str, usize, Option<(usize, usize)>)] = rows! {
    ("", 0, Some((1, 1)))
    ("", 1, None)
    ("[1,\n 2]", 5, Some((2, 2)))
    ("[1,\n 2]", 3, Some((1, 4)))
    ("[1,\n 2]", 4, Some((2, 1)))
    ("[1,\n 2]", 7, Some((2, 4)))
    ("[1,\n 2]", 8, None)
    ("\r\n\n\u{1f984}é,", 3, Some((3, 1)))
    ("\r\n\n\u{1f984}é,", 4, None)
    ("\r\n\n\u{1f984}é,", 6, None)
    ("\r\n\n\u{1f984}é,", 7, Some((3, 2)))
    ("\r\n\n\u{1f984}é,", 8, None)
    ("\r\n\n\u{1f984}é,", 9, Some((3, 3)))
    ("\r\n\n\u{1f984}é,", 10, Some((3, 4)))
    ("\r\n\n\u{1f984}é,", 18446744073709551615, None)
};

#[test]
fn gives_the_place_of_an_offset(rt: HostRuntime) {
    for (text, offset, wanted) in AT {
        let found = Place::at(text, *offset);
        expect(&rt, text, found.is_none_or(|place| place.offset == *offset));
        let found = found.map(|place| (place.line, place.column));
        expect_eq(&rt, text, found, *wanted);
    }
}

/// For `?` in a `main`.
fn for_main(alloc: Global, text: &str) -> io::Result<JsonValue> {
    let reading = &Reading::USUAL;
    Ok(parse_located(alloc, text, reading)?)
}

/// The message and the kind of the `io::Error` of a text.
fn raised_by(alloc: Global, text: &str) -> io::Result<(String, ErrorKind)> {
    match for_main(alloc, text) {
        Ok(_) => Ok((String::new(alloc), ErrorKind::Other)),
        Err(raised) => Ok((format!(in alloc; "{raised}")?, raised.kind())),
    }
}

#[test]
fn raises_io_errors(rt: HostRuntime) -> Result<(), Fail> {
    let alloc = rt.alloc();
    let rows = [
        (
            "[1,\n",
            "Unexpected end of JSON at (2:1)",
            ErrorKind::UnexpectedEof,
        ),
        (
            "[1 \u{1f984}",
            "Unexpected character: \u{1f984} at (1:4)",
            ErrorKind::InvalidData,
        ),
        (
            "\"\\uDC00\\uDC00",
            "Failed to parse UTF-8 bytes at (1:13)",
            ErrorKind::InvalidData,
        ),
    ];
    for (text, message, kind) in rows {
        let (found, found_kind) = raised_by(alloc, text)?;
        expect_eq(&rt, message, found.as_str(), message);
        expect_eq(&rt, message, found_kind, kind);
    }
    let most = Place {
        offset: usize::MAX,
        line: usize::MAX,
        column: usize::MAX,
    };
    let longest = "Failed to parse UTF-8 bytes at (18446744073709551615:18446744073709551615)";
    let located = LocatedError {
        error: Error::FailedUtf8Parsing,
        place: Some(most),
    };
    let raised = format!(in alloc; "{}", io::Error::from(located))?;
    expect_eq(&rt, "the longest", raised.as_str(), longest);
    let word = "a word of more than fifty bytes, as no value's kind has it";
    let located = LocatedError {
        error: Error::wrong_type(alloc, word)?,
        place: Some(most),
    };
    let raised = format!(in alloc; "{}", io::Error::from(located))?;
    expect_eq(
        &rt,
        "too long",
        raised.as_str(),
        "Wrong type, expected: a word of more than fifty bytes, as no value's kind has...",
    );
    let long = format!(in alloc; "{word}, {word}")?;
    let cut = format!(in alloc; "{}", io::Error::new(ErrorKind::Other, long.as_str()))?;
    expect_eq(
        &rt,
        "cut by io::Error",
        cut.as_str(),
        "a word of more than fifty bytes, as no value's kind has it, a word of more th...",
    );
    Ok(())
}

/// The error alone.
fn error_alone(alloc: Global, text: &str) -> jzon::Result<()> {
    match error_of(alloc, text, &Reading::STRICT) {
        Some(located) => Err(located.error),
        None => Ok(()),
    }
}

/// An error that no text has in itself, or that a caller makes.
#[test]
fn shows_other_errors(rt: HostRuntime) {
    let alloc = rt.alloc();
    let memory = LocatedError {
        error: Error::OutOfMemory,
        place: None,
    };
    expect_located(&rt, alloc, &memory, "Out of memory", None);
    let made = LocatedError {
        error: Error::ExceededDepthLimit,
        place: Some(Place {
            offset: 6,
            line: 2,
            column: 3,
        }),
    };
    expect_located(
        &rt,
        alloc,
        &made,
        "Exceeded depth limit at (2:3)",
        Some((6, 2, 3)),
    );
    let end = matches!(error_alone(alloc, "["), Err(Error::UnexpectedEndOfJson));
    expect(&rt, "the error alone", end);
    expect(&rt, "no error", error_alone(alloc, "[]").is_ok());
}
