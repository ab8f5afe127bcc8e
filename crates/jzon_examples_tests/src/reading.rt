//! Tests of `cookbook::reading`.

use crate::common::{Tested, expect, expect_eq};
use jzon::{Error, LocatedError, Reading};
use jzon_examples::cookbook::reading::{
    explained, load, parse_after_mark, parse_all, parse_bytes, parse_flat, parse_lines,
    parse_strictly,
};
use std::io::ErrorKind;
use std::test::Fail;

#[test]
fn loads(rt: HostRuntime) -> Tested {
    let rows = [
        ("/dev/null", ErrorKind::UnexpectedEof),
        ("/dev/null/none.json", ErrorKind::NotADirectory),
    ];
    for (path, kind) in rows {
        let error = load(&rt, path).err().ok_or("no error")?;
        expect_eq(&rt, path, error.kind(), kind);
    }
    Ok(())
}

#[test]
fn reads_bytes_and_lines(rt: HostRuntime) -> Tested {
    let alloc = rt.alloc();
    assert!(rt; parse_bytes(alloc, b"true")?.eq_bool(true));
    assert!(rt; parse_bytes(alloc, b"\"\xff\"") == Err(Error::FailedUtf8Parsing));
    Ok(())
}

#[test]
fn reads_after_a_mark(rt: HostRuntime) -> Tested {
    let alloc = rt.alloc();
    let marked = "\u{feff}true";
    assert!(rt; jzon::parse(alloc, marked).is_err());
    assert!(rt; parse_after_mark(alloc, marked)?.eq_bool(true));
    Ok(())
}

#[test]
fn reads_lines(rt: HostRuntime) -> Tested {
    let alloc = rt.alloc();
    let values = parse_lines(alloc, "{\"a\": 1}\n\n[2]\r\n")?;
    assert_eq!(rt;
        jzon::stringify(alloc, values)?.as_str(),
        r#"[{"a":1},[2]]"#
    );
    Ok(())
}

#[test]
fn reads_texts_in_a_row(rt: HostRuntime) -> Tested {
    let alloc = rt.alloc();
    let values = parse_all(alloc, "{\"a\":\n1}[2] \n\n 3 \"é\"null\n")?;
    assert_eq!(rt;
        jzon::stringify(alloc, values)?.as_str(),
        r#"[{"a":1},[2],3,"é",null]"#
    );
    Ok(())
}

#[test]
fn rejects_texts_in_a_row(rt: HostRuntime) -> Tested {
    let alloc = rt.alloc();
    assert!(rt; parse_all(alloc, " \n")?.is_empty());
    // A no-break space is no whitespace of JSON.
    assert!(rt; parse_lines(alloc, "\u{a0}").is_err() && parse_all(alloc, "1\u{a0}").is_err());
    let error = parse_all(alloc, "[1]\n[2 3]").err().ok_or("no error")?;
    assert!(rt; error.line() == Some(1) && error.column() == Some(4));
    Ok(())
}

#[test]
fn rejects_a_lone_surrogate(rt: HostRuntime) {
    let alloc = rt.alloc();
    let lone = Error::UnexpectedCharacter {
        ch: '"',
        line: 1,
        column: 8,
    };
    assert!(rt; jzon::parse(alloc, r#""\ud83d""#) == Err(lone));
}

#[test]
fn explains(rt: HostRuntime) -> Tested {
    let alloc = rt.alloc();
    let faulty = "{\n  \"a\": 1\n  \"b\": 2\n}";
    let error = jzon::parse_located(alloc, faulty, &Reading::USUAL)
        .err()
        .ok_or("no error")?;
    assert_eq!(rt;
        explained(alloc, "a.json", faulty, &error)?.as_str(),
        "a.json:3:3: Unexpected character: \" at (3:3)\n  \"b\": 2\n  ^"
    );
    Ok(())
}

/// A text, and what is printed for its error.
const EXPLAINED: &[(&str, &str)] = &[
    ("", "f:1:1: Unexpected end of JSON\n\n^"),
    ("[1,\n", "f:2:1: Unexpected end of JSON\n\n^"),
    (
        "{\n\t\"a\": 1\n\t\"b\": 2\n}",
        "f:3:2: Unexpected character: \" at (3:2)\n\t\"b\": 2\n\t^",
    ),
    (
        "[\"é\"\n, \"\\udc00\\udc00\"]",
        "f:2:15: Failed to parse UTF-8 bytes\n, \"\\udc00\\udc00\"]\n              ^",
    ),
];

#[test]
fn explains_each_error(rt: HostRuntime) -> Tested {
    let alloc = rt.alloc();
    for (text, message) in EXPLAINED {
        match jzon::parse_located(alloc, text, &Reading::USUAL) {
            Ok(_) => expect(&rt, text, false),
            Err(error) => {
                let words = explained(alloc, "f", text, &error)?;
                expect_eq(&rt, text, words.as_str(), message);
            }
        }
    }
    let memory = LocatedError {
        error: Error::OutOfMemory,
        place: None,
    };
    let words = explained(alloc, "f", "", &memory)?;
    expect_eq(&rt, "no place", words.as_str(), "f: Out of memory");
    Ok(())
}

/// The 40 characters before the column, and the 40 from it on.
#[test]
fn cuts_long_lines(rt: HostRuntime) -> Tested {
    let alloc = rt.alloc();
    let ones = "1,".repeat(alloc, 100)?;
    let twos = "2,".repeat(alloc, 100)?;
    let text = format!(in alloc; "[{ones}x{twos}")?;
    let error = jzon::parse_located(alloc, text.as_str(), &Reading::USUAL).err();
    let words = explained(alloc, "f", text.as_str(), &error.ok_or("no error")?)?;
    let (before, after) = ("1,".repeat(alloc, 20)?, "2,".repeat(alloc, 19)?);
    let indent = " ".repeat(alloc, 40)?;
    let message = format!(in alloc;
        "f:1:202: Unexpected character: x at (1:202)\n{before}x{after}2\n{indent}^"
    )?;
    expect_eq(&rt, "cut", words.as_str(), message.as_str());
    Ok(())
}

#[test]
fn reads_by_other_rules(rt: HostRuntime) -> Tested {
    let alloc = rt.alloc();
    let twice = "{\"a\": 1,\n \"a\": 2}";
    assert!(rt; jzon::parse(alloc, twice)?.at("a").eq_u64(2));
    let repeated = Error::DuplicateKey { line: 2, column: 2 };
    assert!(rt; parse_strictly(alloc, twice) == Err(repeated));
    Ok(())
}

#[test]
fn reads_flat_texts(rt: HostRuntime) {
    let alloc = rt.alloc();
    let deep = "[[[[[[[[[[[[[[[[[1]]]]]]]]]]]]]]]]]";
    assert!(rt; jzon::parse(alloc, deep).is_ok());
    assert!(rt; parse_flat(alloc, deep) == Err(Error::ExceededDepthLimit));
    assert!(rt; parse_flat(alloc, &deep[1..34]).is_ok());
}
