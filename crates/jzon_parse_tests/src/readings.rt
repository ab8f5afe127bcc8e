//! Readings: which exist, what they accept and reject, and what they admit.

use crate::common::{expect, expect_dump, expect_eq, expect_rejected, read};
use jzon::number::NAN;
use jzon::{JsonValue, Reading, parse};
use jzon_test_support::rows;
use std::test::Fail;

/// Whether it is strict, the depth, and whether there is such a reading.
const READINGS: &[(bool, u16, bool)] = &[
    (false, 0, true),
    (true, 0, true),
    (false, 512, true),
    (true, 512, true),
    (false, 513, false),
    (true, 513, false),
    (true, 65535, false),
];

#[test]
fn has_at_most_512_open(rt: HostRuntime) {
    for (strict, depth, is_some) in READINGS {
        let reading = Reading::new(*strict, *depth);
        expect_eq(&rt, "a reading", reading.is_some(), *is_some);
        let found = reading.map(|reading| (reading.strict(), reading.depth()));
        let is_right = found.is_none_or(|found| found == (*strict, *depth));
        expect(&rt, "its strictness and depth", is_right);
        let exact = Reading::USUAL.with_exact_numbers().with_depth(*depth);
        let found = (exact.strict(), exact.depth(), exact.exact_numbers());
        let most = if *is_some { *depth } else { 512 };
        expect_eq(&rt, "another depth", found, (false, most, true));
    }
    let constants = [
        (Reading::USUAL, false, false),
        (Reading::STRICT, true, false),
        (Reading::LOSSLESS, true, true),
        (Reading::USUAL.strictly(), true, false),
    ];
    for (reading, strict, exact) in constants {
        let found = (reading.strict(), reading.depth(), reading.exact_numbers());
        expect_eq(&rt, "a constant", found, (strict, 512, exact));
    }
}

/// Whether the reading is strict, its depth, a text, and the dump of its value.
const ACCEPTED: &[(bool, u16, &str, &str)] = rows! {
    (false, 0, "1", "1")
    (false, 0, "[ ]", "[]")
    (false, 0, "{}", "{}")
    (false, 1, "[[]]", "[[]]")
    (false, 1, "{\"a\":[],\"b\":{}}", "{\"a\":[],\"b\":{}}")
    (false, 512, "{\"a\":1,\"a\":2}", "{\"a\":2}")
    (false, 512, "\u{b}[\u{c}1]", "[1]")
    (true, 512, "\t\n\r [1]", "[1]")
    (true, 512, "{\"a\":{\"a\":1},\"b\":{\"a\":1}}", "{\"a\":{\"a\":1},\"b\":{\"a\":1}}")
    (true, 512, "{\"a\":1,\"A\":2,\"\":3,\"aa\":4}", "{\"a\":1,\"A\":2,\"\":3,\"aa\":4}")
};

#[test]
fn accepts(rt: HostRuntime) -> Result<(), Fail> {
    for (strict, depth, text, dump) in ACCEPTED {
        let value = read(rt.alloc(), *strict, *depth, text)?;
        expect_dump(&rt, rt.alloc(), &value, dump);
    }
    Ok(())
}

/// Whether the reading is strict, its depth, a text, and the message of its first fault.
const FAULTS: &[(bool, u16, &str, &str)] = &[
    (false, 0, "[1]", "Exceeded depth limit"),
    (false, 0, "[x", "Exceeded depth limit"),
    (false, 0, "[}", "Exceeded depth limit"),
    (false, 0, "{1", "Exceeded depth limit"),
    (false, 0, "[", "Unexpected end of JSON"),
    (false, 0, "x", "Unexpected character: x at (1:1)"),
    (false, 1, "[[1]]", "Exceeded depth limit"),
    (false, 1, "[1,{\"a\":2}]", "Exceeded depth limit"),
    (true, 1, r#"{"a":1,"b":[1],"a":2}"#, "Exceeded depth limit"),
];

/// A text, and the message of its first fault by the strict reading of depth 512.
const STRICT_FAULTS: &[(&str, &str)] = &[
    ("{\"a\":1,\"a\"", "Duplicate key at (1:8)"),
    ("{\"a\":1,\"a", "Unexpected end of JSON"),
    ("{\"a\":1,\"a\"x", "Duplicate key at (1:8)"),
    ("{\"a\":1,\n\"a\":2}", "Duplicate key at (2:1)"),
    ("{\"a\":1,\"\\u0061\":2}", "Duplicate key at (1:8)"),
    ("[\"é\",{\"é\":1,\"é\":2}]", "Duplicate key at (1:13)"),
    ("{\"a\":[1],\"b\":2,\"a\":3}", "Duplicate key at (1:16)"),
    ("[\u{c}1]", "Unexpected character: \u{c} at (1:2)"),
    ("\u{b}1", "Unexpected character: \u{b} at (1:1)"),
];

#[test]
fn reports_the_first_fault(rt: HostRuntime) {
    for (strict, depth, text, message) in FAULTS {
        let outcome = read(rt.alloc(), *strict, *depth, text);
        expect_rejected(&rt, rt.alloc(), text, outcome, message);
    }
    for (text, message) in STRICT_FAULTS {
        let outcome = read(rt.alloc(), true, 512, text);
        expect_rejected(&rt, rt.alloc(), text, outcome, message);
    }
}

/// A depth, a text, and whether a reading of that depth admits its value.
const ADMITTED: &[(u16, &str, bool)] = &[
    (0, "1", true),
    (0, "[]", true),
    (0, "[1]", false),
    (1, "[[]]", true),
    (0, "[[1]]", false),
    (1, "[[1]]", false),
    (1, "[1,[],[2],[]]", false),
    (1, "{\"a\":[],\"b\":{\"c\":1}}", false),
    (2, "[1,{\"a\":2}]", true),
];

#[test]
fn admits_what_reads_back(rt: HostRuntime) -> Result<(), Fail> {
    for (depth, text, admitted) in ADMITTED {
        let value = parse(rt.alloc(), text)?;
        let admits = Reading::new(true, *depth).map(|reading| reading.admits(&value));
        expect_eq(&rt, text, admits, Some(*admitted));
    }
    let nan = JsonValue::Number(NAN);
    let admits = Reading::new(false, 512).map(|reading| reading.admits(&nan));
    expect_eq(&rt, "NaN", admits, Some(false));
    Ok(())
}
