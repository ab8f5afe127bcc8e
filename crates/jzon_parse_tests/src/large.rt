//! Large texts, faults late in them, each depth, and what is left of a text that is rejected.

use crate::common::{expect, expect_dump, expect_rejected, read};
use jzon::{Error, parse};
use jzon_test_support::{
    Long, RUNS_MAX, Refusals, joined, keys_by_hash, object_text, rows, spelled,
};
use std::alloc::Global;
use std::process::Abort;
use std::test::Fail;

/// A text, and its dump.
const READ: &[(Long, Long)] = rows! {
    (("\"", &[("\\uD834\\uDD1E", 70000, "\"")]), ("\"", &[("\u{1d11e}", 70000, "\"")]))
    (("\"", &[("p", 200000, "\\u0001\\u0041\"")]), ("\"", &[("p", 200000, "\\u0001A\"")]))
    (("[\"\\n", &[("p", 200000, "\\u0009"), ("é", 70000, "\"]")]),
        ("[\"\\n", &[("p", 200000, "\\t"), ("é", 70000, "\"]")]))
    (("{\"", &[("\\n", 200000, "\":\""), ("\\u00e9", 70000, "\"}")]),
        ("{\"", &[("\\n", 200000, "\":\""), ("é", 70000, "\"}")]))
    (("", &[(" ", 70000, "["), ("\t", 70000, "1"), ("\n", 70000, ",2]")]), ("[1,2]", &[]))
    (("{", &[("\n ", 70000, "\"a\""), (" ", 70000, ":"), ("\r", 70000, "{}}")]), ("{\"a\":{}}", &[]))
    (("[", &[(" ", 70000, "]"), ("\r\n", 70000, "")]), ("[]", &[]))
    (("[9.", &[("9", 200000, ",1e"), ("9", 200000, ",1e-"), ("9", 200000, "]")]),
        ("[9.999999999999999999,1e32767,1e-32768]", &[]))
    (("[8", &[("0", 32785, ",0."), ("0", 32767, "1,0."), ("0", 32768, "]")]),
        ("[8.000000000000000000e32785,1e-32768,0]", &[]))
    (("[{}", &[(",[[[{\"a\":[{},null]}]],\"é\"]", 70000, "]")]),
        ("[{}", &[(",[[[{\"a\":[{},null]}]],\"é\"]", 70000, "]")]))
};

/// By both readings.
#[test]
fn reads_large_texts(rt: HostRuntime) -> Result<(), Fail> {
    let alloc = rt.alloc();
    for (text, dump) in READ {
        let text = spelled(alloc, text)?;
        let dump = spelled(alloc, dump)?;
        let value = parse(alloc, text.as_str())?;
        expect_dump(&rt, alloc, &value, dump.as_str());
        let strict = read(alloc, true, 512, text.as_str())?;
        expect(&rt, "strictly", strict == value);
    }
    Ok(())
}

/// A container after one of its depth that has more elements or entries than 16 bits can count.
#[test]
fn reads_containers_after_large_ones(rt: HostRuntime) -> Result<(), Fail> {
    let alloc = rt.alloc();
    let object = object_text(alloc, keys_by_hash(alloc, 70000)?.as_slice())?;
    let parts = [
        ("[[0", 1),
        (",0", 70000),
        ("],[1],", 1),
        (object.as_str(), 1),
        (",{\"a\":null},[{}]]", 1),
    ];
    let text = joined(alloc, &parts)?;
    for strict in [false, true] {
        let value = read(alloc, strict, 512, text.as_str())?;
        expect_dump(&rt, alloc, &value, text.as_str());
    }
    Ok(())
}

/// An array after a large object of its depth gets room for few elements.
#[test]
fn makes_little_room_after_a_large_object(rt: HostRuntime) -> Result<(), Fail> {
    let alloc = rt.alloc();
    let object = object_text(alloc, keys_by_hash(alloc, 1000)?.as_slice())?;
    let text = joined(alloc, &[("[", 1), (object.as_str(), 1), (",[1]]", 1)])?;
    let value = parse(alloc, text.as_str())?;
    let room = value.at_index(1).as_array().map(|items| items.capacity());
    expect(&rt, "the room", room.is_some_and(|room| room <= 4));
    Ok(())
}

/// Whether the reading is strict, a text, and its first wrong character, with line and column.
const WRONG_LATE: &[(bool, Long, &str)] = &[
    (false, ("[\n", &[("1,\n", 70000, "x")]), "x at (70002:1)"),
    (true, ("[", &[("1,", 35000, "x")]), "x at (1:70002)"),
    (false, ("[\"", &[("é", 70000, "\" x")]), "x at (1:70005)"),
    (true, ("[", &[("\n", 70000, "é")]), "é at (70001:1)"),
    (false, ("\"", &[("p", 200000, "\\x")]), "x at (1:200003)"),
    (false, ("\"", &[("\\n", 70000, "\n")]), "\n at (1:140002)"),
    (
        false,
        ("{\"a\":1", &[(",\"a\":1", 70000, ",}")]),
        "} at (1:420008)",
    ),
    (true, ("[", &[(" ", 70000, "\u{c}")]), "\u{c} at (1:70002)"),
    (false, ("", &[("[", 512, "x")]), "x at (1:513)"),
];

const DEEP: &str = "Exceeded depth limit";

const END: &str = "Unexpected end of JSON";

const NO_PAIR: &str = "Failed to parse UTF-8 bytes";

/// Whether the reading is strict, a text, and the message of its first fault.
const REJECTED: &[(bool, Long, &str)] = &[
    (false, ("\"", &[("p", 200000, "\\uDC00\\uDC00")]), NO_PAIR),
    (true, ("{\"", &[("\\n", 70000, "\\ud800\\u0041")]), NO_PAIR),
    (true, ("[8", &[("0", 32786, "]")]), DEEP),
    (false, ("[0.", &[("0", 32769, "]")]), DEEP),
    (true, ("[8", &[("0", 200000, ",")]), DEEP),
    (true, ("{\"a\":[", &[("\"b\",", 70000, "")]), END),
    // More digits than a number may have.
    (false, ("8", &[("0", 32786, "")]), DEEP),
    (false, ("8", &[("0", 40000, "e-40000")]), DEEP),
    (false, ("0.", &[("0", 32769, "")]), DEEP),
    (false, ("0.", &[("0", 40000, "")]), DEEP),
    (false, ("0.", &[("0", 40000, "e40000")]), DEEP),
    (false, ("8", &[("0", 32786, ".")]), DEEP),
    (false, ("8", &[("0", 32786, ".e")]), DEEP),
    (false, ("-0.", &[("0", 32769, "ex")]), DEEP),
    // Open containers.
    (false, ("[0", &[(",0", 70000, ","), ("[", 512, "1")]), DEEP),
    (false, ("[0", &[(",0", 70000, ","), ("[", 512, "")]), END),
    (false, ("", &[("[", 513, "null"), ("]", 513, "")]), DEEP),
    (
        false,
        ("", &[("[{\"a\":", 5000, "null"), ("}]", 5000, "")]),
        DEEP,
    ),
    (
        false,
        ("", &[("[", 512, "{\"a\":1}"), ("]", 512, "")]),
        DEEP,
    ),
    (
        false,
        ("", &[("{\"a\":", 512, "[1]"), ("}", 512, "")]),
        DEEP,
    ),
    (false, ("", &[("[", 513, "}")]), DEEP),
    (false, ("", &[("[", 513, "x")]), DEEP),
    (false, ("", &[("[", 100000, "")]), DEEP),
    (false, ("", &[("[", 512, "{1")]), DEEP),
    (false, ("", &[("[", 513, "")]), END),
    (false, ("", &[("[", 512, "{ ")]), END),
    // Texts without end.
    (false, ("", &[("[{\"a\":", 100000, "")]), DEEP),
    (false, ("\"", &[("a", 100000, "")]), END),
    (false, ("\"", &[("\\", 100000, "")]), END),
    (false, ("[", &[("1,", 100000, "")]), END),
    (false, ("", &[(" ", 100000, "")]), END),
    // Keys that are repeated.
    (
        true,
        ("{\"", &[("k", 200000, "\":1,\""), ("k", 200000, "\":2}")]),
        "Duplicate key at (1:200007)",
    ),
    (
        true,
        ("{\"a\":1,", &[("\n", 70000, "\"\\u0061\"")]),
        "Duplicate key at (70001:1)",
    ),
    (
        true,
        ("{\"a\":1,\"b\":\"", &[("é", 70000, "\",\"a\":2}")]),
        "Duplicate key at (1:70015)",
    ),
    (
        true,
        ("[", &[("{\"a\":1},", 70000, "{\"a\":1,\"a\"")]),
        "Duplicate key at (1:560009)",
    ),
];

/// The text is rejected with this message, also by `parse` if the reading isn't strict.
fn expect_late_fault(
    rt: &impl Abort,
    alloc: Global,
    strict: bool,
    text: &Long,
    message: &str,
) -> Result<(), Fail> {
    let text = spelled(alloc, text)?;
    if !strict {
        expect_rejected(rt, alloc, message, parse(alloc, text.as_str()), message);
    }
    let outcome = read(alloc, strict, 512, text.as_str());
    expect_rejected(rt, alloc, message, outcome, message);
    Ok(())
}

#[test]
fn rejects_late_faults(rt: HostRuntime) -> Result<(), Fail> {
    for (strict, text, place) in WRONG_LATE {
        let message = format!(in rt.alloc(); "Unexpected character: {place}")?;
        expect_late_fault(&rt, rt.alloc(), *strict, text, message.as_str())?;
    }
    for (strict, text, message) in REJECTED {
        expect_late_fault(&rt, rt.alloc(), *strict, text, message)?;
    }
    Ok(())
}

/// Whether the reading is strict, how a container is opened and closed, and how many open
/// containers that is.
const OPENED: &[(bool, &str, &str, usize)] = &[
    (true, "[", "]", 1),
    (false, "{\"a\":", "}", 1),
    (true, "[{\"a\":", "}]", 2),
];

/// A text with as many open containers as a reading of this depth accepts is read; with one more
/// it is rejected.
fn expect_depth(rt: &impl Abort, alloc: Global, depth: u16) -> Result<(), Fail> {
    for (strict, open, close, count) in OPENED {
        let repeated = usize::from(depth).checked_div(*count).unwrap_or(0);
        let inside = [(*open, repeated), ("1", 1), (*close, repeated)];
        let text = joined(alloc, &inside)?;
        let value = read(alloc, *strict, depth, text.as_str())?;
        expect(rt, open, value.dump(alloc)?.as_str() == text.as_str());
        let text = joined(alloc, &[("[", 1), (*open, repeated), ("[1", 1)])?;
        let outcome = read(alloc, *strict, depth, text.as_str());
        expect(rt, open, matches!(outcome, Err(Error::ExceededDepthLimit)));
    }
    Ok(())
}

#[test]
fn reads_each_depth(rt: HostRuntime) -> Result<(), Fail> {
    for depth in 0..=512 {
        expect_depth(&rt, rt.alloc(), depth)?;
    }
    Ok(())
}

/// A text with containers in one another, and with long keys and strings.
const NESTED: &str = concat!(
    r#"[{"0123456789abcdef0123456789abcdef!":[{"b":"a text of more than thirty bytes"},"#,
    r#"[true,[],{}]],"c":{"d":[["more than thirty bytes, \u00e9 and \n"]],"#,
    r#""another key of more than thirty bytes":[{"a\nb":{"c":{}}},"a text of more than thirty bytes"]}}]"#
);

/// Each allocation fails in turn; then the text is accepted, or rejected with an error of its own.
/// Each run drops all that it read.
fn fail_each(rt: &impl Abort, alloc: Global, text: &str) -> Result<Refusals, Fail> {
    let mut refusals = Refusals::new(alloc);
    for _ in 0..RUNS_MAX {
        refusals.open();
        refusals.begin();
        let outcome = read(alloc, true, 512, text);
        let has_failed = refusals.has_failed();
        let is_of_memory = matches!(outcome, Err(Error::OutOfMemory));
        drop(outcome);
        refusals.close();
        expect(rt, text, is_of_memory == has_failed);
        if !has_failed {
            break;
        }
    }
    refusals.expect_even()?;
    Ok(refusals)
}

/// Wherever a text ends or goes wrong.
#[test]
fn prefixes_under_refusals(rt: HostRuntime) -> Result<(), Fail> {
    let alloc = rt.alloc();
    for len in 0..NESTED.len() {
        let prefix = NESTED.get(..len).unwrap_or("");
        fail_each(&rt, alloc, prefix)?;
        let text = joined(alloc, &[(prefix, 1), ("?", 1)])?;
        fail_each(&rt, alloc, text.as_str())?;
    }
    fail_each(&rt, alloc, NESTED)?.report(&rt, "parse_as of each prefix", 35)?;
    Ok(())
}

/// Texts that are rejected in many or deep containers, or for a key that is repeated in one.
const DROPPED: &[Long] = &[
    (
        "[0",
        &[(",\"a text of more than thirty bytes\"", 5000, ",]")],
    ),
    ("", &[("[\"a text of more than thirty bytes\",", 512, "")]),
    ("", &[("{\"0123456789abcdef0123456789abcdef!\":", 512, "x")]),
    (
        "",
        &[("[\"a text of more than thirty bytes\",{\"a\":", 256, "]")],
    ),
    (
        "",
        &[(
            "{\"0123456789abcdef0123456789abcdef!\":[[\"a\"],",
            256,
            "[1",
        )],
    ),
    (
        "[[1],[{\"a\":\"a text of more than thirty bytes\",\"a\"",
        &[],
    ),
    (
        "{\"a\":[1],\"b\":[{\"0123456789abcdef0123456789abcdef!\":[1],",
        &[("\"0123456789abcdef0123456789abcdef!\":[", 1, "")],
    ),
];

/// More than the rejected texts take.
const MOST_OF_REJECTED: usize = 1 << 30;

/// A rejected text leaves nothing.
fn expect_nothing_left(rt: &(impl Eprint + Abort), alloc: Global, text: &str) -> Result<(), Fail> {
    let mut refusals = Refusals::new(alloc);
    refusals.open();
    let is_rejected = read(alloc, true, 512, text).is_err();
    refusals.close();
    refusals.expect_within(rt, "a rejected text", MOST_OF_REJECTED)?;
    refusals.expect_even()?;
    expect(rt, text, is_rejected);
    Ok(())
}

#[test]
fn rejections_counted(rt: HostRuntime) -> Result<(), Fail> {
    let alloc = rt.alloc();
    for text in DROPPED {
        expect_nothing_left(&rt, alloc, spelled(alloc, text)?.as_str())?;
    }
    let text = object_text(alloc, keys_by_hash(alloc, 5000)?.as_slice())?;
    let text = text.replace(alloc, "null", "\"a text of more than thirty bytes\"")?;
    let text = text.replace(alloc, "}", ",\"0\"")?;
    expect_nothing_left(&rt, alloc, text.as_str())
}
