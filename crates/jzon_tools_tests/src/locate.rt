//! Tests of `locate`.

use crate::common::{Tested, Tester, expect, expect_eq};
use jzon::Reading;
use jzon_pointer::error::{Error, Expected, Found, What};
use jzon_pointer::locate;
use std::alloc::AllocError;

/// A text, a pointer, and the offset, line and column of the value that it names.
const FOUND: &[(&str, &str, (usize, usize, usize))] = &[
    ("7", "", (0, 1, 1)),
    (" \n 7", "", (3, 2, 2)),
    ("[1,[2,3],4]", "/1/1", (6, 1, 7)),
    ("[ 1 , 2 ]", "/1", (6, 1, 7)),
    ("{\"a\":1,\"b\":{\"c\":[true]}}", "/b/c/0", (17, 1, 18)),
    ("{\"a\":1,\"a\":2}", "/a", (11, 1, 12)),
    ("{\"a\":{\"b\":1},\"a\":{\"b\":2}}", "/a/b", (22, 1, 23)),
    ("{\"a\": [\"]\", \"\\\"}\", 5]}", "/a/2", (19, 1, 20)),
    ("{\"\\u0061\\n\":1}", "/a\n", (12, 1, 13)),
    ("{\"a/b\":1,\"c~\":2}", "/a~1b", (7, 1, 8)),
    ("{\"a/b\":1,\"c~\":2}", "/c~0", (14, 1, 15)),
    ("{\"\":{\"\":3}}", "//", (8, 1, 9)),
    ("{\"é\":1,\n\"日\": 2}", "/日", (16, 2, 6)),
    (
        "{\"a\":{\"b\":1,\"b\":2},\"a\":{\"b\":[3],\"b\":[4,5]}}",
        "/a/b/1",
        (39, 1, 40),
    ),
    (
        "{\"text\": \"No quote in these forty bytes, nor any other, and one \\\" then.\", \"a\": 1}",
        "/a",
        (80, 1, 81),
    ),
    (
        "{\n  \"servers\": [\n    {\"port\": 80},\n    {\"port\": \"80\"}\n  ]\n}",
        "/servers/1/port",
        (48, 4, 14),
    ),
];

/// A text and a pointer that names nothing in it.
const NONE: &[(&str, &str)] = &[
    ("7", "/"),
    ("[]", "/0"),
    ("[ ]", "/0"),
    ("[1]", "/1"),
    ("[1,2]", "/00"),
    ("[1,2]", "/-"),
    ("[1,2]", "/18446744073709551615"),
    ("[1,2]", "/18446744073709551616"),
    ("[1,2]", "/100000000000000000000000000000000"),
    ("{}", "/a"),
    ("{\"a\":1}", "/b"),
    ("{\"a\":1}", "/a/b"),
    ("{\"a\":1}", "a"),
    ("{\"~\":1}", "/~"),
    ("{\"a\":[1],\"a\":{}}", "/a/0"),
];

/// Texts that aren't JSON: the walk ends, whatever it gives.
const ENDS: &[&str] = &[
    "",
    "{",
    "[",
    "{\"",
    "{\"a",
    "{\"a\"",
    "{\"a\":",
    "{\"a\":1",
    "{\"a\":1,",
    "[1",
    "[1,",
    "[\"\\",
    "[[[[",
    "]]]]",
    "{\"a\"1}",
    "{a:1}",
    "[,]",
    "é",
    "[é,é]",
];

fn expect_place(
    rt: &impl Tester,
    text: &str,
    pointer: &str,
    want: Option<(usize, usize, usize)>,
) -> Tested {
    let place = locate::value_in(rt.alloc(), text, pointer, &Reading::USUAL)?;
    let found = place.map(|place| (place.offset, place.line, place.column));
    expect_eq(rt, text, found, want);
    Ok(())
}

#[test]
fn locates(rt: HostRuntime) -> Tested {
    for (text, pointer, place) in FOUND {
        expect_place(&rt, text, pointer, Some(*place))?;
    }
    for (text, pointer) in NONE {
        expect_place(&rt, text, pointer, None)?;
    }
    Ok(())
}

/// An element on a line of its own: 46 bytes, with the comma before it.
const RECORD: &str = "\n,{\"id\": \"a \\\"b\\\"\", \"tags\": [[], {}], \"at\": 7}";

/// An object that begins, and has a key twice: 11 bytes.
const TWICE: &str = "{\"a\":0,\"a\":";

fn repeated(rt: &impl Tester, text: &str, times: usize) -> Result<String, AllocError> {
    let mut whole = String::new(rt.alloc());
    for _ in 0..times {
        whole.push_str(text)?;
    }
    Ok(whole)
}

/// In 2,000 records, and where each of 300 objects has the same key twice.
#[test]
fn locates_far(rt: HostRuntime) -> Tested {
    let records = repeated(&rt, RECORD, 2000)?;
    let list = format!(in rt.alloc(); "[0{records}]")?;
    expect_place(&rt, list.as_str(), "/1500/at", Some((69000, 1501, 44)))?;
    let inner = repeated(&rt, TWICE, 300)?;
    let ends = repeated(&rt, "}", 300)?;
    let nested = format!(in rt.alloc(); "{inner}7{ends}")?;
    let pointer = repeated(&rt, "/a", 300)?;
    expect_place(
        &rt,
        nested.as_str(),
        pointer.as_str(),
        Some((3300, 1, 3301)),
    )
}

#[test]
fn ends(rt: HostRuntime) -> Tested {
    for text in ENDS {
        for pointer in ["", "/0", "/1", "/a", "/a/0", "/0/0/0/0/0"] {
            let place = locate::value_in(rt.alloc(), text, pointer, &Reading::USUAL)?;
            if let Some(place) = place {
                expect(&rt, text, place.offset <= text.len());
            }
        }
    }
    Ok(())
}

#[test]
fn locates_keys(rt: HostRuntime) -> Tested {
    let place = locate::key_in(
        rt.alloc(),
        "{\"a\": {\n \"hots\" : 1}}",
        "/a/hots",
        &Reading::STRICT,
    )?;
    expect_eq(
        &rt,
        "hots",
        place.map(|place| (place.line, place.column)),
        Some((2, 2)),
    );
    Ok(())
}

/// A text with a repeated key.
const REPEATED: &str = "{\"a\": 1,\n\"a\": {\"b\": 2}}";

/// Pointers into it, whether an entry is missing there, and the line and column of the error.
const PLACED: &[(&str, bool, (usize, usize))] = &[
    ("/a", false, (2, 6)),
    ("/a/b", false, (2, 12)),
    ("/a/c", true, (2, 6)),
    ("/c", true, (1, 1)),
];

#[test]
fn places_errors(rt: HostRuntime) -> Tested {
    for (path, is_missing, want) in PLACED {
        let what = if *is_missing {
            What::Missing(Expected::Value)
        } else {
            What::Wrong {
                expected: Expected::String,
                found: Found::Null,
            }
        };
        let error = Error::at_pointer(rt.alloc(), path, what);
        let placed = error.in_text(rt.alloc(), REPEATED, &Reading::USUAL);
        let found = placed.place().map(|place| (place.line, place.column));
        expect_eq(&rt, path, found, Some(*want));
    }
    Ok(())
}
