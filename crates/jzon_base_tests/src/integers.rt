//! Integers as numbers, and numbers as integers.

use crate::common::{Parts, expect, expect_eq, number};
use jzon_base::number::{NAN, Number, NumberOutOfScope};
use std::process::Abort;

#[test]
fn keeps_the_magnitude(rt: HostRuntime) {
    let rows = [
        (Number::from(255u8), (true, 255, 0)),
        (Number::from(65535u16), (true, 65535, 0)),
        (Number::from(4294967295u32), (true, 4294967295, 0)),
        (Number::from(u64::MAX), (true, 18446744073709551615, 0)),
        (Number::from(usize::MAX), (true, 18446744073709551615, 0)),
        (Number::from(-128i8), (false, 128, 0)),
        (Number::from(-32768i16), (false, 32768, 0)),
        (Number::from(-2147483648i32), (false, 2147483648, 0)),
        (Number::from(i64::MIN), (false, 9223372036854775808, 0)),
        (Number::from(isize::MAX), (true, 9223372036854775807, 0)),
    ];
    for (number, parts) in rows {
        expect_eq(&rt, "the parts", number.as_parts(), parts);
    }
}

/// The parts, an integer, and whether the number is that integer.
const EQUAL: &[(Parts, i64, bool)] = &[
    ((true, 5, 2), 500, true),
    ((true, 500, 0), 500, true),
    ((true, 5000, -1), 500, true),
    ((true, 5001, -1), 500, false),
    ((true, 1, 20), 1, false),
    ((false, 0, 0), 0, true),
    ((true, 0, 32767), 0, true),
    ((true, 1, -32768), 0, false),
    ((false, 9223372036854775808, 0), i64::MIN, true),
];

#[test]
fn equals_integers(rt: HostRuntime) {
    for (parts, integer, equal) in EQUAL {
        let number = number(*parts);
        expect_eq(&rt, "i64", number.eq_i64(*integer), *equal);
        let is_equal = number.eq_u64(integer.unsigned_abs());
        expect_eq(&rt, "u64", is_equal, *equal && *integer >= 0);
    }
    expect(&rt, "NaN", !NAN.eq_i64(0) && !NAN.eq_u64(0));
}

/// Parts, and the number as an integer without a sign, and as one with a sign, of 64 bits.
const INTEGERS: &[(Parts, Option<u64>, Option<i64>)] = &[
    ((true, 255, 0), Some(255), Some(255)),
    ((true, 256, 0), Some(256), Some(256)),
    ((true, 65535, 0), Some(65535), Some(65535)),
    ((true, 65536, 0), Some(65536), Some(65536)),
    ((true, 4294967295, 0), Some(4294967295), Some(4294967295)),
    ((true, 4294967296, 0), Some(4294967296), Some(4294967296)),
    ((true, 127, 0), Some(127), Some(127)),
    ((true, 128, 0), Some(128), Some(128)),
    ((false, 128, 0), None, Some(-128)),
    ((false, 129, 0), None, Some(-129)),
    ((true, 32768, 0), Some(32768), Some(32768)),
    ((false, 32768, 0), None, Some(-32768)),
    ((true, 2147483648, 0), Some(2147483648), Some(2147483648)),
    ((false, 2147483648, 0), None, Some(-2147483648)),
    ((true, 7, 0), Some(7), Some(7)),
    ((false, 7, 0), None, Some(-7)),
    ((true, u64::MAX, 0), Some(u64::MAX), None),
    ((false, 1 << 63, 0), None, Some(i64::MIN)),
    ((false, 9223372036854775809, 0), None, None),
    ((true, 1 << 63, 0), Some(1 << 63), None),
    ((false, 0, 0), None, Some(0)),
    ((true, 5, 2), None, None),
    ((true, 50, -1), None, None),
    ((true, 0, 5), None, None),
];

/// Each of the types has the number where it has the integer of 64 bits.
macro_rules! expect_fits {
    ($rt:expr, $number:expr, $integer:expr, $($type:ty)*) => {
        $(expect_eq(
            $rt,
            stringify!($type),
            <$type>::try_from($number).ok(),
            $integer.and_then(|integer| <$type>::try_from(integer).ok()),
        );)*
    };
}

fn expect_integers(rt: &impl Abort, number: Number, unsigned: Option<u64>, signed: Option<i64>) {
    expect_eq(rt, "u64", u64::try_from(number).ok(), unsigned);
    expect_eq(rt, "i64", i64::try_from(number).ok(), signed);
    expect_fits!(rt, number, unsigned, u8 u16 u32 usize);
    expect_fits!(rt, number, signed, i8 i16 i32 isize);
}

#[test]
fn fits_integers(rt: HostRuntime) {
    for (parts, unsigned, signed) in INTEGERS {
        expect_integers(&rt, number(*parts), *unsigned, *signed);
    }
    expect_integers(&rt, NAN, None, None);
    expect(&rt, "the error", u8::try_from(NAN) == Err(NumberOutOfScope));
}

/// The parts, the point, and the readings as an u64 and as an i64.
type Row = (Parts, u16, Option<u64>, Option<i64>);

const CUT: &[Row] = &[
    ((false, 12345, -4), 4, None, Some(-12345)),
    ((false, 12345, -4), 2, None, Some(-123)),
    ((false, 12345, -4), 0, None, Some(-1)),
    ((true, 12345, -4), 3, Some(1234), Some(1234)),
    ((true, 19, -1), 0, Some(1), Some(1)),
    ((false, 1, -1), 0, None, Some(0)),
    ((true, 5, -20), 0, Some(0), Some(0)),
    ((true, 50, -21), 0, Some(0), Some(0)),
    ((true, 5, 19), 0, None, None),
    ((true, 5, 0), 19, None, None),
    ((true, 1, 0), 19, Some(10000000000000000000), None),
    (
        (true, 1, 0),
        18,
        Some(1000000000000000000),
        Some(1000000000000000000),
    ),
    ((true, u64::MAX, -19), 19, Some(u64::MAX), None),
    ((true, u64::MAX, -19), 20, None, None),
    ((true, 1 << 63, 0), 0, Some(1 << 63), None),
    ((false, 1 << 63, 0), 0, None, Some(i64::MIN)),
    ((false, 9223372036854775809, 0), 0, None, None),
    ((false, 0, 0), 0, None, Some(0)),
    ((true, 0, 0), 65535, Some(0), Some(0)),
    ((true, 0, 32767), 65535, Some(0), Some(0)),
    ((true, 1, 32767), 65535, None, None),
    ((true, u64::MAX, -32768), 0, Some(0), Some(0)),
    ((false, 7, -32768), 32768, None, Some(-7)),
];

/// What is read of the number at the point.
fn expect_read(
    rt: &impl Abort,
    number: Number,
    point: u16,
    unsigned: Option<u64>,
    signed: Option<i64>,
) {
    expect_eq(rt, "unsigned", number.as_fixed_point_u64(point), unsigned);
    expect_eq(rt, "signed", number.as_fixed_point_i64(point), signed);
}

#[test]
fn cuts_toward_zero(rt: HostRuntime) {
    for (parts, point, unsigned, signed) in CUT {
        expect_read(&rt, number(*parts), *point, *unsigned, *signed);
    }
    expect_read(&rt, NAN, 0, None, None);
}
