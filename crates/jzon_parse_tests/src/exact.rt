//! Exact readings: the numbers that they accept, and the first digit at which they reject a text.

use crate::common::{expect, expect_dump, expect_eq, expect_located};
use jzon::{JsonValue, LocatedError, Reading, laws, parse, parse_located};
use jzon_test_support::{Long, joined, rows, spelled};
use std::alloc::Global;
use std::process::Abort;
use std::test::Fail;

/// The exact reading of this strictness and depth.
fn exact(strict: bool, depth: u16) -> Option<Reading> {
    Some(Reading::new(strict, depth)?.with_exact_numbers())
}

/// What the text means by this exact reading, if it accepts the text.
fn value_of(alloc: Global, strict: bool, depth: u16, text: &str) -> Option<JsonValue> {
    parse_located(alloc, text, &exact(strict, depth)?).ok()
}

/// The error of the text, if this exact reading rejects it.
fn error_of(alloc: Global, strict: bool, depth: u16, text: &str) -> Option<LocatedError> {
    parse_located(alloc, text, &exact(strict, depth)?).err()
}

/// A reading, and whether it is strict, its depth, and whether it is exact.
#[test]
fn has_a_third_property(rt: HostRuntime) {
    for (reading, strict) in [(Reading::USUAL, false), (Reading::STRICT, true)] {
        expect_eq(&rt, "a constant", reading.exact_numbers(), false);
        let exact = reading.with_exact_numbers();
        let found = (exact.strict(), exact.depth(), exact.exact_numbers());
        expect_eq(&rt, "with exact numbers", found, (strict, 512, true));
        expect_eq(&rt, "before", reading.exact_numbers(), false);
        let again = exact.with_exact_numbers();
        expect_eq(&rt, "again", again.exact_numbers(), true);
    }
    for (strict, depth) in [(false, 0), (true, 0), (false, 7), (true, 512)] {
        let new = Reading::new(strict, depth).map(|reading| reading.exact_numbers());
        expect_eq(&rt, "a new one", new, Some(false));
        let found = exact(strict, depth).map(|reading| (
            reading.strict(),
            reading.depth(),
            reading.exact_numbers(),
        ));
        expect_eq(&rt, "an exact one", found, Some((strict, depth, true)));
    }
}

/// A number that is exact, and its parts.
const EXACT: &[(&str, (bool, u64, i16))] = rows! {
    // 19, 20 and 21 digits, and 2^64 - 1.
    ("9999999999999999999", (true, 9999999999999999999, 0))
    ("10000000000000000000", (true, 10000000000000000000, 0))
    ("18446744073709551600", (true, 18446744073709551600, 0))
    ("18446744073709551609", (true, 18446744073709551609, 0))
    ("18446744073709551610", (true, 18446744073709551610, 0))
    ("18446744073709551615", (true, 18446744073709551615, 0))
    ("-18446744073709551615", (false, 18446744073709551615, 0))
    ("18446744073709551620", (true, 1844674407370955162, 1))
    ("99999999999999999990", (true, 9999999999999999999, 1))
    ("184467440737095516150", (true, 18446744073709551615, 1))
    ("184467440737095516200", (true, 1844674407370955162, 2))
    ("100000000000000000000", (true, 10000000000000000000, 1))
    ("200000000000000000000", (true, 2000000000000000000, 2))
    ("100000000000000000000000000", (true, 10000000000000000000, 7))
    // Around a point.
    ("1.8446744073709551615", (true, 18446744073709551615, -19))
    ("184467440737095516.15", (true, 18446744073709551615, -2))
    ("1844674407370955161.5", (true, 18446744073709551615, -1))
    ("18446744073709551615.0", (true, 18446744073709551615, 0))
    ("18446744073709551615.000", (true, 18446744073709551615, 0))
    ("18446744073709551620.0", (true, 1844674407370955162, 1))
    ("184467440737095516150.00", (true, 18446744073709551615, 1))
    ("1844674407370955162.0", (true, 1844674407370955162, 0))
    ("1844674407370955161.50", (true, 18446744073709551615, -1))
    ("0.18446744073709551615", (true, 18446744073709551615, -20))
    ("0.184467440737095516150", (true, 18446744073709551615, -20))
    ("0.00018446744073709551615000", (true, 18446744073709551615, -23))
    ("100000000000000000000.0", (true, 10000000000000000000, 1))
    ("1.0000000000000000000000000", (true, 10000000000000000000, -19))
    ("19.99", (true, 1999, -2))
    ("19.990000000000000000000", (true, 1999000000000000000, -17))
    ("-0.5000000000000000000000", (false, 5000000000000000000, -19))
    // Exponents at both ends, alone and in sums.
    ("1e32767", (true, 1, 32767))
    ("1E+32767", (true, 1, 32767))
    ("1e0000000000000000000032767", (true, 1, 32767))
    ("10e32767", (true, 10, 32767))
    ("1.5e32768", (true, 15, 32767))
    ("0.00001e32772", (true, 1, 32767))
    ("18446744073709551615e32767", (true, 18446744073709551615, 32767))
    ("184467440737095516150e32766", (true, 18446744073709551615, 32767))
    ("1.0000000000000000000000000e32786", (true, 10000000000000000000, 32767))
    ("1.8446744073709551615e32786", (true, 18446744073709551615, 32767))
    ("1e-32768", (true, 1, -32768))
    ("-1e-0032768", (false, 1, -32768))
    ("10e-32768", (true, 10, -32768))
    ("1.5e-32767", (true, 15, -32768))
    ("0.001e-32765", (true, 1, -32768))
    ("100000000000000000000e-32769", (true, 10000000000000000000, -32768))
    ("184467440737095516150e-32769", (true, 18446744073709551615, -32768))
    ("200000000000000000000e-32770", (true, 2000000000000000000, -32768))
    // A zero is exact, whatever its exponent.
    ("0", (true, 0, 0))
    ("-0", (false, 0, 0))
    ("0.0", (true, 0, -1))
    ("0.0000000000000000000000000", (true, 0, -25))
    ("0e99999", (true, 0, 32767))
    ("0e-99999", (true, 0, -32768))
    ("-0e99999", (false, 0, 32767))
    ("-0.00e-32768", (false, 0, -32768))
    ("0.0e123456789012345678901234567890", (true, 0, 32767))
};

/// A number that isn't exact, and the column of its first digit that is lost or leaves the range.
const INEXACT: &[(&str, usize)] = rows! {
    // 20 and 21 digits, and 2^64.
    ("18446744073709551616", 20)
    ("18446744073709551619", 20)
    ("18446744073709551621", 20)
    ("-18446744073709551616", 21)
    ("99999999999999999991", 20)
    ("99999999999999999999", 20)
    ("184467440737095516151", 21)
    ("184467440737095516160", 20)
    ("184467440737095516165", 20)
    ("184467440737095516201", 21)
    ("100000000000000000001", 21)
    ("1000000000000000000000000001000", 28)
    ("18446744073709551616e5", 20)
    ("18446744073709551616e-99999", 20)
    ("18446744073709551616.5", 20)
    // Around a point.
    ("1.8446744073709551616", 21)
    ("184467440737095516.16", 21)
    ("1844674407370955161.6", 21)
    ("18446744073709551615.5", 22)
    ("18446744073709551615.0001", 25)
    ("18446744073709551620.05", 23)
    ("184467440737095516150.01", 24)
    ("1844674407370955161.501", 23)
    ("0.18446744073709551616", 22)
    ("0.184467440737095516151", 23)
    ("0.00018446744073709551615001", 28)
    ("100000000000000000000.5", 23)
    ("1.0000000000000000000000001", 27)
    ("19.990000000000000000001", 24)
    ("3.14159265358979323846264338", 21)
    ("-0.5000000000000000000001", 25)
    // Exponents at both ends, alone and in sums.
    ("1e32768", 7)
    ("1E+32768", 8)
    ("-1e00032768", 11)
    ("1e327670", 8)
    ("1e99999", 7)
    ("1e123456789012345678901234567890", 8)
    // The number of the exponent's digits is 5 modulo 2^64.
    ("1e18446744073709551621", 8)
    ("-1e-18446744073709551621", 10)
    ("10e32768", 8)
    ("1.5e32769", 9)
    ("0.00001e32773", 13)
    ("18446744073709551615e32768", 26)
    ("184467440737095516150e32767", 27)
    ("1.0000000000000000000000000e32787", 33)
    ("1e-32769", 8)
    ("1e-327680", 9)
    ("1e-99999", 8)
    ("10e-32769", 9)
    ("1.0e-32768", 10)
    ("1.5e-32768", 10)
    ("0.001e-32766", 12)
    ("100000000000000000000e-32770", 28)
    ("184467440737095516150e-32770", 28)
};

/// What is before a number in a text, and after it; its line, and how many characters of the line
/// are before it.
const AROUND: &[(&str, &str, usize, usize)] = rows! {
    ("", "", 1, 0)
    (" \t", "\n", 1, 2)
    ("[", "]", 1, 1)
    ("[0.5,", ",1]", 1, 5)
    ("{\"é\":\n", "}", 2, 0)
    ("{\"a\":[{\"漢\":", "}]}", 1, 11)
    ("{\"a\":1,\"b\":\r\n  ", ",\"c\":[]}", 2, 2)
};

/// By each exact reading of this depth the text means a value with this dump.
fn expect_value(rt: &impl Abort, alloc: Global, depth: u16, text: &str, dump: &str) {
    for strict in [false, true] {
        match value_of(alloc, strict, depth, text) {
            Some(value) => expect_dump(rt, alloc, &value, dump),
            None => expect(rt, text, false),
        }
    }
}

/// By each exact reading of this depth the text means what it means by `parse`, and so does its
/// compact text.
fn expect_exact(rt: &impl Abort, alloc: Global, depth: u16, text: &str) -> Result<(), Fail> {
    let want = parse(alloc, text)?.dump(alloc)?;
    expect_value(rt, alloc, depth, text, want.as_str());
    expect_value(rt, alloc, depth, want.as_str(), want.as_str());
    Ok(())
}

#[test]
fn accepts_exact_numbers(rt: HostRuntime) -> Result<(), Fail> {
    let alloc = rt.alloc();
    for (text, parts) in EXACT {
        let number = value_of(alloc, false, 0, text).and_then(|value| value.as_number());
        let found = number.map(|number| number.as_parts());
        expect_eq(&rt, text, found, Some(*parts));
        for (before, after, _, _) in AROUND {
            let whole = joined(alloc, &[(before, 1), (text, 1), (after, 1)])?;
            expect_exact(&rt, alloc, 3, whole.as_str())?;
        }
    }
    Ok(())
}

/// By each exact reading of this depth the text is rejected with this error at this offset. `parse`
/// accepts it.
fn expect_inexact(
    rt: &impl Abort,
    alloc: Global,
    depth: u16,
    text: &str,
    place: (usize, usize, usize),
) -> Result<(), Fail> {
    let (_, line, column) = place;
    let words = format!(in alloc; "Number is not exact at ({line}:{column})")?;
    for strict in [false, true] {
        match error_of(alloc, strict, depth, text) {
            Some(located) => expect_located(rt, alloc, &located, words.as_str(), Some(place)),
            None => expect(rt, text, false),
        }
    }
    expect(rt, text, parse(alloc, text).is_ok());
    Ok(())
}

#[test]
fn rejects_inexact_numbers(rt: HostRuntime) -> Result<(), Fail> {
    let alloc = rt.alloc();
    for (text, column) in INEXACT {
        for (before, after, line, left) in AROUND {
            let whole = joined(alloc, &[(before, 1), (text, 1), (after, 1)])?;
            let offset = before.len().saturating_add(*column).saturating_sub(1);
            let place = (offset, *line, left.saturating_add(*column));
            expect_inexact(&rt, alloc, 3, whole.as_str(), place)?;
        }
    }
    Ok(())
}

/// A long number that is exact. Of 1 and zeros, 20 digits are kept.
const LONG_EXACT: &[Long] = rows! {
    ("1", &[("0", 32786, "")])
    ("1", &[("0", 32786, ".000")])
    ("1", &[("0", 32786, "e-65535")])
    ("2", &[("0", 32785, "e00")])
    ("1.", &[("0", 40000, "")])
    ("1.", &[("0", 40000, "e32786")])
    ("0.", &[("0", 32767, "1")])
    ("0.", &[("0", 32767, "1e65535")])
    ("0.", &[("0", 32748, "18446744073709551615"), ("0", 40000, "")])
    ("0.", &[("0", 32768, "e99999")])
    ("-0.", &[("0", 32768, "e-99999")])
    ("1e", &[("0", 100000, "32767")])
    ("1e-", &[("0", 100000, "32768")])
    ("0e", &[("9", 100000, "")])
};

/// A long number that isn't exact, and the offset of its first digit that is lost or leaves the
/// range.
const LONG_INEXACT: &[(Long, usize)] = rows! {
    (("1", &[("0", 32785, "1")]), 32786)
    (("1", &[("0", 32786, ".1")]), 32788)
    (("1", &[("0", 32786, "e1")]), 32788)
    (("1", &[("0", 32786, "e-65536")]), 32793)
    (("9.", &[("9", 40000, "")]), 20)
    (("1.", &[("0", 40000, "1")]), 40002)
    (("1.", &[("0", 40000, "e32787")]), 40007)
    (("0.", &[("0", 32767, "1e-1")]), 32772)
    (("0.", &[("0", 32767, "1e65536")]), 32775)
    (("0.", &[("0", 32748, "184467440737095516151")]), 32770)
    (("1e", &[("9", 100000, "")]), 6)
    (("1e-", &[("9", 100000, "")]), 7)
    (("1e", &[("0", 100000, "32768")]), 100006)
};

#[test]
fn reads_long_numbers_exactly(rt: HostRuntime) -> Result<(), Fail> {
    let alloc = rt.alloc();
    for text in LONG_EXACT {
        expect_exact(&rt, alloc, 0, spelled(alloc, text)?.as_str())?;
    }
    for (text, offset) in LONG_INEXACT {
        let text = spelled(alloc, text)?;
        let place = (*offset, 1, offset.saturating_add(1));
        expect_inexact(&rt, alloc, 0, text.as_str(), place)?;
    }
    Ok(())
}

/// In as many arrays, and in one more.
#[test]
fn is_exact_at_each_depth(rt: HostRuntime) -> Result<(), Fail> {
    let alloc = rt.alloc();
    for depth in 0..=512u16 {
        let open = usize::from(depth);
        let text = joined(alloc, &[("[", open), ("1.50", 1), ("]", open)])?;
        expect_exact(&rt, alloc, depth, text.as_str())?;
        let text = joined(alloc, &[("[", open), ("1e32768", 1), ("]", open)])?;
        let place = (open.saturating_add(6), 1, open.saturating_add(7));
        expect_inexact(&rt, alloc, depth, text.as_str(), place)?;
    }
    Ok(())
}

/// A caller's proof may cite the laws.
fn exact_value(alloc: Global, text: &str) -> jzon::Result<JsonValue> {
    laws::exact_numbers();
    laws::inexact_numbers();
    jzon::parse_as(alloc, text, &Reading::STRICT.with_exact_numbers())
}

/// All that isn't a number is read as by the reading without exact numbers.
#[test]
fn reads_other_values_alike(rt: HostRuntime) -> Result<(), Fail> {
    let alloc = rt.alloc();
    for text in [
        "null",
        "[]",
        " \"18446744073709551616\"",
        "{\"1e32768\":[true,{}]}",
    ] {
        expect_exact(&rt, alloc, 512, text)?;
        expect(&rt, text, exact_value(alloc, text)? == parse(alloc, text)?);
    }
    Ok(())
}
