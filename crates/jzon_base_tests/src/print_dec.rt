//! Printed numbers.

use crate::common::{Parts, expect, expect_display, expect_eq, number};
use jzon_base::number::NAN;
use jzon_base::util::print_dec::{DIGITS_ROOM, is_common, put_digits, write};
use std::alloc::Global;
use std::process::Abort;
use std::test::Fail;

/// Parts and their text: the mantissa's digits, with at most a minus and a point.
const PLAIN: &[(bool, u64, i16, &str)] = &[
    (true, 100, -1, "10.0"),
    (true, 3141592653589793, -15, "3.141592653589793"),
    (true, 10, 0, "10"),
    (true, 150, -2, "1.50"),
    (true, 15, -1, "1.5"),
    (true, 100, -2, "1.00"),
    (true, u64::MAX, 0, "18446744073709551615"),
    (false, 7, 0, "-7"),
    (false, u64::MAX, -16, "-1844.6744073709551615"),
    (false, 125, -1, "-12.5"),
    (true, 1, 0, "1"),
    (false, 9, 0, "-9"),
    (false, 99999999, 0, "-99999999"),
    (true, 10000000000000000000, 0, "10000000000000000000"),
    (false, u64::MAX, 0, "-18446744073709551615"),
    (false, 1250, -2, "-12.50"),
    (true, 12345678901234567, -16, "1.2345678901234567"),
];

/// Parts and their text, of other forms.
const OTHER: &[(bool, u64, i16, &str)] = &[
    (false, u64::MAX, -17, "-184.46744073709551615"),
    (true, 123456789012345678, -17, "1.23456789012345678"),
    (true, 0, 100, "0"),
    (false, 0, -100, "-0"),
    (true, 5, -2, "0.05"),
    (true, 1, -17, "0.00000000000000001"),
    (true, 1, -18, "1e-18"),
    (true, 4750000000000001, -18, "4.750000000000001e-3"),
    (true, 3141592653589793, -31, "3.141592653589793e-16"),
    (true, 1, -32768, "1e-32768"),
    (true, 1, 19, "10000000000000000000"),
    (true, 1, 20, "1e20"),
    (true, 1, -1, "0.1"),
    (true, 1, -300, "1e-300"),
    (true, 5, 19, "50000000000000000000"),
    (true, 7, 70, "7e70"),
    (true, 3141592653589793, 35, "3.141592653589793e50"),
    (true, u64::MAX, 32767, "1.8446744073709551615e32786"),
    (true, 10000000000000000001, -18, "1.0000000000000000001e+1"),
    (true, 10000000000000000001, -19, "1.0000000000000000001"),
    (false, u64::MAX, -32768, "-1.8446744073709551615e-32749"),
    (true, 1844674407370955161, 2, "1.844674407370955161e20"),
    (true, 12, 32767, "1.2e32768"),
    (true, 0, 5, "0"),
    (false, 1250, 1, "-12500"),
    (true, 5000000000000000000, 1, "50000000000000000000"),
    (true, 0, 0, "0"),
    (true, 0, -1, "0"),
    (true, 12, 1, "120"),
    (true, 12, -2, "0.12"),
    (true, 1234567890123456789, -18, "1.234567890123456789"),
];

/// All calls print the text. `put_digits` puts only a plain one, of a common number.
fn expect_printed(
    rt: &impl Abort,
    alloc: Global,
    parts: Parts,
    text: &str,
    is_plain: bool,
) -> Result<(), Fail> {
    expect_display(rt, alloc, &number(parts), text)?;
    let (positive, mantissa, exponent) = parts;
    let mut written = Vec::new(alloc);
    write(&mut written, positive, mantissa, exponent)?;
    expect(rt, text, written.as_slice() == text.as_bytes());
    let is_common = is_common(mantissa, exponent);
    expect_eq(rt, text, is_common, is_plain);
    if is_common {
        let mut room = [b'-'; DIGITS_ROOM + 3];
        room[..3].copy_from_slice(b"abc");
        let end = put_digits(&mut room, 3, positive, mantissa, exponent);
        expect(rt, text, &room[..3] == b"abc".as_slice());
        expect(rt, text, &room[3..end] == text.as_bytes());
    }
    Ok(())
}

#[test]
fn prints(rt: HostRuntime) -> Result<(), Fail> {
    for (rows, is_plain) in [(PLAIN, true), (OTHER, false)] {
        for (positive, mantissa, exponent, text) in rows {
            let parts = (*positive, *mantissa, *exponent);
            expect_printed(&rt, rt.alloc(), parts, text, is_plain)?;
        }
    }
    expect_display(&rt, rt.alloc(), &NAN, "nan")?;
    Ok(())
}
