//! What errors report.

use crate::common::{expect, expect_eq};
use jzon::{Reading, parse_as};

/// A text, and the line and the column of its error, counted by hand.
const PLACES: &[(&str, Option<usize>, Option<usize>)] = &[
    ("[1,\n 2,\n  x]", Some(3), Some(3)),
    ("nulX", Some(1), Some(4)),
    ("{\"a\":1,\n\"\u{e9}\":2,\"a\":3}", Some(2), Some(7)),
    ("[1,", None, None),
    ("\"\\ud800\\u0020\"", None, None),
    ("[1,\n 18446744073709551616]", Some(2), Some(21)),
];

#[test]
fn reports_line_and_column(rt: HostRuntime) {
    let reading = Reading::STRICT.with_exact_numbers();
    for (text, line, column) in PLACES {
        match parse_as(rt.alloc(), text, &reading) {
            Ok(_) => expect(&rt, text, false),
            Err(error) => {
                expect_eq(&rt, text, error.line(), *line);
                expect_eq(&rt, text, error.column(), *column);
            }
        }
    }
}
