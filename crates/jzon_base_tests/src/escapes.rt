//! Escapes: the letters of simple escapes, and hexadecimal digits; and runs of bytes without escapes,
//! of the lengths at which blocks of lanes end, and with a stop at each offset.

use crate::common::expect_eq;
use jzon_base::util::escapes::{hex_digit, hex_value, letter_of, meant_by};
use jzon_base::util::plain::plain_len;

/// A letter after a backslash, and the character that both mean.
const MEANT: &[(u8, Option<char>)] = &[
    (b'"', Some('"')),
    (b'\\', Some('\\')),
    (b'/', Some('/')),
    (b'b', Some('\u{8}')),
    (b'f', Some('\u{c}')),
    (b'n', Some('\n')),
    (b'r', Some('\r')),
    (b't', Some('\t')),
    (b'u', None),
    (b'N', None),
    (b'0', None),
    (0, None),
    (255, None),
];

/// A byte, and the letter of its simple escape.
const LETTERS: &[(u8, Option<u8>)] = &[
    (b'"', Some(b'"')),
    (b'\\', Some(b'\\')),
    (8, Some(b'b')),
    (9, Some(b't')),
    (10, Some(b'n')),
    (12, Some(b'f')),
    (13, Some(b'r')),
    (b'/', None),
    (0, None),
    (11, None),
    (31, None),
    (255, None),
];

#[test]
fn reads_and_prints_letters(rt: HostRuntime) {
    for (letter, meant) in MEANT {
        expect_eq(&rt, "the meaning of a letter", meant_by(*letter), *meant);
    }
    for (byte, letter) in LETTERS {
        expect_eq(&rt, "the letter of a byte", letter_of(*byte), *letter);
    }
}

/// A byte, and its value as a hexadecimal digit.
const DIGITS: &[(u8, Option<u32>)] = &[
    (b'0', Some(0)),
    (b'9', Some(9)),
    (b'a', Some(10)),
    (b'f', Some(15)),
    (b'A', Some(10)),
    (b'F', Some(15)),
    (b'/', None),
    (b':', None),
    (b'@', None),
    (b'G', None),
    (b'`', None),
    (b'g', None),
    (0, None),
    (255, None),
];

#[test]
fn reads_and_prints_digits(rt: HostRuntime) {
    for (byte, value) in DIGITS {
        expect_eq(&rt, "the value of a digit", hex_value(*byte), *value);
    }
    expect_eq(&rt, "9", hex_digit(9), b'9');
    expect_eq(&rt, "10", hex_digit(10), b'a');
}

const SHORT_RUNS: &[(&[u8], usize)] = &[
    (b"", 0),
    (b"\"", 0),
    (b"\x1f", 0),
    (b"\x7f", 1),
    (b"\xff\xff\x1f", 2),
    (b"  /a", 4),
    (&[b' '; 64], 64),
];

#[test]
fn short_runs(rt: HostRuntime) {
    for (bytes, len) in SHORT_RUNS {
        expect_eq(&rt, "a run", plain_len(bytes), *len);
    }
}

/// The bytes of a run, and its stop.
const RUNS: &[(u8, u8)] = &[(b'a', b'"'), (b'a', b'\\'), (b' ', b'\\'), (255, 31)];

/// A run with its stop at each offset ends there, also where nothing follows the stop, and where the
/// stop is missing.
#[test]
fn runs_to_each_offset(rt: HostRuntime) {
    for (byte, stop) in RUNS {
        for offset in 0..70 {
            let mut bytes = [*byte; 70];
            bytes[offset] = *stop;
            for len in [offset, offset + 1, 40, 70] {
                let run = bytes.get(..len).unwrap_or(b"");
                expect_eq(&rt, "a run", plain_len(run), offset.min(len));
            }
        }
    }
}
