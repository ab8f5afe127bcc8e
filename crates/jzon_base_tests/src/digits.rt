//! Digits that are read into parts.

ghost use Rattle.std.specs.Prelude.{◌≡◌, ◌↔◌, ◌++◌, ◌%◌, ◌^◌, IsTrue};
ghost use Rattle.std.specs.List.{All};
ghost use Rattle.jzon_base.specs.Digits.{IsDigit, digits_number};

use crate::common::expect_eq;
use jzon_base::digits::NumberFault::{Lost, OutOfRange, TooMany};
use jzon_base::digits::{NumberFault, read_digits, read_scanned, scan};
use jzon_test_support::{Long, rows, spelled};
use std::test::Fail;

fn are_digits(text: &[u8]) -> bool
    ensures { IsTrue result ↔ All IsDigit text.now }
{
    text.iter().all(|byte| byte.is_ascii_digit())
}

/// The mantissa and the exponent that were read, or why they weren't.
type Outcome = Result<(u64, i16), NumberFault>;

/// The outcome for these digits before and after the point, and these of the exponent after a sign.
fn outcome_of(
    whole: &[u8],
    fraction: &[u8],
    positive_exponent: bool,
    exponent: &[u8],
    exact: bool,
) -> Option<Outcome> {
    if !are_digits(whole) || !are_digits(fraction) || !are_digits(exponent) {
        return None;
    }
    let number = number_modulo(whole, fraction);
    let written = number_modulo(&[], exponent);
    let scanned = read_scanned(
        whole,
        fraction,
        number,
        positive_exponent,
        exponent,
        written,
    );
    match scanned {
        Some(parts) => Some(Ok(parts)),
        None => Some(read_digits(whole, fraction, positive_exponent, exponent, exact)),
    }
}

/// The number that the digits before and after a point spell, modulo 2^64.
fn number_modulo(whole: &[u8], fraction: &[u8]) -> u64
    requires whole { All IsDigit whole.now }
    requires fraction { All IsDigit fraction.now }
    ensures { result ≡ digits_number (whole.now ++ fraction.now) % 2 ^ 64 }
{
    let (_, before) = scan(whole, 0);
    let (_, number) = scan(fraction, before);
    number
}

const READ: &[(&str, &str, u64, i16)] = &[
    ("0", "", 0, 0),
    ("18446744073709551616", "", 1844674407370955161, 1),
    ("184467440737095516", "165", 1844674407370955161, -1),
    ("50000000000000000000", "", 5000000000000000000, 1),
];

/// `jzon_parse_tests` has the limits, and exponents.
#[test]
fn reads(rt: HostRuntime) {
    for (whole, fraction, mantissa, exponent) in READ {
        let outcome = outcome_of(whole.as_bytes(), fraction.as_bytes(), true, b"", false);
        expect_eq(&rt, whole, outcome, Some(Ok((*mantissa, *exponent))));
    }
}

/// The digits before the point, those after it, and the outcome of an exact reading.
const EXACT: &[(&str, &str, Outcome)] = rows! {
    ("9999999999999999999", "", Ok((9999999999999999999, 0)))
    ("18446744073709551615", "", Ok((u64::MAX, 0)))
    ("18446744073709551616", "", Err(Lost(19)))
    ("18446744073709551620", "", Ok((1844674407370955162, 1)))
    ("184467440737095516150", "", Ok((u64::MAX, 1)))
    ("184467440737095516151", "", Err(Lost(20)))
    ("184467440737095516160", "", Err(Lost(19)))
    ("1000000000000000000001", "", Err(Lost(21)))
    ("00000000000000000000001", "", Ok((1, 0)))
    ("000018446744073709551616", "", Err(Lost(23)))
    ("1844674407370955161", "5", Ok((u64::MAX, -1)))
    ("1844674407370955161", "6", Err(Lost(19)))
    ("18446744073709551615", "00", Ok((u64::MAX, 0)))
    ("18446744073709551615", "01", Err(Lost(21)))
    ("18446744073709551620", "0", Ok((1844674407370955162, 1)))
    ("18446744073709551620", "05", Err(Lost(21)))
    ("184467440737095516151", "5", Err(Lost(20)))
    ("0", "00000000000000000001", Ok((1, -20)))
    ("0", "184467440737095516150", Ok((u64::MAX, -20)))
    ("0", "18446744073709551616", Err(Lost(20)))
};

/// The digits before and after the point, whether the exponent is positive, its digits, and the
/// outcome of an exact reading.
const EXACT_EXPONENTS: &[(&str, &str, bool, &str, Outcome)] = rows! {
    ("1", "", true, "32767", Ok((1, 32767)))
    ("1", "", true, "32768", Err(OutOfRange(4)))
    ("1", "", true, "0099999", Err(OutOfRange(6)))
    ("1", "", true, "3276700", Err(OutOfRange(5)))
    ("0", "", true, "99999", Ok((0, 32767)))
    ("0", "00", false, "99999", Ok((0, -32768)))
    ("00000000000000000000", "", true, "99999", Ok((0, 32767)))
    ("1", "", false, "32768", Ok((1, -32768)))
    ("1", "", false, "32769", Err(OutOfRange(4)))
    ("1", "5", false, "32767", Ok((15, -32768)))
    ("1", "5", false, "32768", Err(OutOfRange(4)))
    ("1", "5", true, "32768", Ok((15, 32767)))
    ("10", "", false, "32769", Err(OutOfRange(4)))
    ("184467440737095516150", "", true, "32766", Ok((u64::MAX, 32767)))
    ("184467440737095516150", "", true, "32767", Err(OutOfRange(4)))
    ("184467440737095516150", "", false, "32769", Ok((u64::MAX, -32768)))
    ("184467440737095516151", "", true, "99999", Err(Lost(20)))
};

/// A digit that is lost before, at or after a digit too many. Of a 1 and zeros, 20 digits are kept.
const EXACT_LIMITS: &[(Long, Long, Outcome)] = rows! {
    (("1", &[("0", 32786, "")]), ("", &[]), Ok((10000000000000000000, 32767)))
    (("1", &[("0", 32786, "")]), ("1", &[]), Err(Lost(32787)))
    (("1", &[("0", 32785, "10")]), ("", &[]), Err(Lost(32786)))
    (("1", &[("0", 32786, "1")]), ("", &[]), Err(TooMany(32787)))
    (("1", &[("0", 32787, "1")]), ("", &[]), Err(TooMany(32787)))
    (("1", &[("0", 32787, "")]), ("1", &[]), Err(TooMany(32787)))
    (("0", &[]), ("", &[("0", 32748, "18446744073709551615")]), Ok((u64::MAX, -32768)))
    (("0", &[]), ("", &[("0", 32748, "184467440737095516151")]), Err(Lost(32769)))
    (("0", &[]), ("", &[("0", 32749, "184467440737095516151")]), Err(TooMany(32769)))
};

#[test]
fn reads_exactly(rt: HostRuntime) {
    for (whole, fraction, want) in EXACT {
        let outcome = outcome_of(whole.as_bytes(), fraction.as_bytes(), true, b"", true);
        expect_eq(&rt, whole, outcome, Some(*want));
    }
}

#[test]
fn reads_exponents_exactly(rt: HostRuntime) {
    for (whole, fraction, positive, exponent, want) in EXACT_EXPONENTS {
        let (whole, fraction) = (whole.as_bytes(), fraction.as_bytes());
        let outcome = outcome_of(whole, fraction, *positive, exponent.as_bytes(), true);
        expect_eq(&rt, exponent, outcome, Some(*want));
    }
}

#[test]
fn reads_many_digits_exactly(rt: HostRuntime) -> Result<(), Fail> {
    for (whole, fraction, want) in EXACT_LIMITS {
        let whole = spelled(rt.alloc(), whole)?;
        let fraction = spelled(rt.alloc(), fraction)?;
        let outcome = outcome_of(whole.as_bytes(), fraction.as_bytes(), true, b"", true);
        expect_eq(&rt, "limits", outcome, Some(*want));
    }
    Ok(())
}
