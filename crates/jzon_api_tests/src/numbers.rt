//! What is read of a number as an integer, also at a fixed point.

use crate::common::{Tested, Tester, expect, expect_eq, number, parts};
use jzon::number::NAN;
use jzon::{JsonValue, View, parse};

/// What is read as each unsigned type, from `u8` to `u64`, and then `usize`.
type Unsigned = (
    Option<u8>,
    Option<u16>,
    Option<u32>,
    Option<u64>,
    Option<usize>,
);

/// The same for the signed types.
type Signed = (
    Option<i8>,
    Option<i16>,
    Option<i32>,
    Option<i64>,
    Option<isize>,
);

/// What is read of a value, or of a view, as each unsigned type.
macro_rules! unsigned {
    ($read:expr) => {
        ($read.as_u8(), $read.as_u16(), $read.as_u32(), $read.as_u64(), $read.as_usize())
    };
}

/// The same for the signed types.
macro_rules! signed {
    ($read:expr) => {
        ($read.as_i8(), $read.as_i16(), $read.as_i32(), $read.as_i64(), $read.as_isize())
    };
}

const NO_UNSIGNED: Unsigned = (None, None, None, None, None);

const NO_SIGNED: Signed = (None, None, None, None, None);

/// The parts of a number, and what is read of it.
const WIDTHS: &[((bool, u64, i16), Unsigned, Signed)] = &[
    (
        (true, 200, 0),
        (Some(200), Some(200), Some(200), Some(200), Some(200)),
        (None, Some(200), Some(200), Some(200), Some(200)),
    ),
    (
        (false, 1, 0),
        NO_UNSIGNED,
        (Some(-1), Some(-1), Some(-1), Some(-1), Some(-1)),
    ),
    (
        (true, 40000, 0),
        (None, Some(40000), Some(40000), Some(40000), Some(40000)),
        (None, None, Some(40000), Some(40000), Some(40000)),
    ),
    ((true, 4, 4), NO_UNSIGNED, NO_SIGNED),
    ((false, 55, -1), NO_UNSIGNED, NO_SIGNED),
    (
        (false, 32768, 0),
        NO_UNSIGNED,
        (None, Some(-32768), Some(-32768), Some(-32768), Some(-32768)),
    ),
];

#[test]
fn reads_each_width(rt: HostRuntime) {
    for ((positive, mantissa, exponent), of_unsigned, of_signed) in WIDTHS {
        let value = parts(*positive, *mantissa, *exponent);
        expect_eq(&rt, "unsigned", unsigned!(value), *of_unsigned);
        expect_eq(&rt, "signed", signed!(value), *of_signed);
        let view = value.as_view();
        expect_eq(&rt, "unsigned", unsigned!(view), *of_unsigned);
        expect_eq(&rt, "signed", signed!(view), *of_signed);
    }
}

/// What is read of it as a `u64` and as an `i64`.
fn expect_integers(
    rt: &impl Tester,
    value: &JsonValue,
    unsigned: Option<u64>,
    signed: Option<i64>,
) {
    expect_eq(rt, "u64", value.as_u64(), unsigned);
    expect_eq(rt, "i64", value.as_i64(), signed);
}

#[test]
fn reads_integers(rt: HostRuntime) {
    expect_integers(&rt, &parts(false, 0, 0), None, Some(0));
    expect_integers(&rt, &parts(true, 5, 2), None, None);
    let least = parts(false, 9223372036854775808, 0);
    expect_integers(&rt, &least, None, Some(i64::MIN));
    expect_integers(&rt, &number(u64::MAX), Some(u64::MAX), None);
    expect_integers(&rt, &JsonValue::Number(NAN), None, None);
}

/// What is read as a `u64` and as an `i64`.
type Both = (Option<u64>, Option<i64>);

/// Parts, the point, and what is read there as a `u64` and as an `i64`.
type FixedPoint = ((bool, u64, i16), u16, Option<u64>, Option<i64>);

const FIXED_POINTS: &[FixedPoint] = &[
    ((false, 12345, -4), 2, None, Some(-123)),
    ((false, 12345, -4), 4, None, Some(-12345)),
    ((true, 1, 0), 19, Some(10000000000000000000), None),
    ((true, 5, 0), 19, None, None),
    ((true, 5, -20), 0, Some(0), Some(0)),
    ((false, 0, 0), 0, None, Some(0)),
];

#[test]
fn reads_fixed_points(rt: HostRuntime) {
    for ((positive, mantissa, exponent), point, unsigned, signed) in FIXED_POINTS {
        let value = parts(*positive, *mantissa, *exponent);
        expect_eq(&rt, "u64", value.as_fixed_point_u64(*point), *unsigned);
        expect_eq(&rt, "i64", value.as_fixed_point_i64(*point), *signed);
    }
}

/// What is read at the point, without losing a digit.
fn expect_view(rt: &impl Tester, view: View<'_>, point: u16, (unsigned, signed): Both) {
    let read = view.as_exact_fixed_point_u64(point);
    expect_eq(rt, "u64 of a view", read, unsigned);
    let read = view.as_exact_fixed_point_i64(point);
    expect_eq(rt, "i64 of a view", read, signed);
}

/// From the value, and from its `View`.
fn expect_exact(rt: &impl Tester, value: &JsonValue, point: u16, both: Both) {
    expect_eq(rt, "u64", value.as_exact_fixed_point_u64(point), both.0);
    expect_eq(rt, "i64", value.as_exact_fixed_point_i64(point), both.1);
    expect_view(rt, value.as_view(), point, both);
}

/// A text, and the readings at 2.
const AMOUNTS: &[(&str, Option<u64>, Option<i64>)] = &[
    ("12.3", Some(1230), Some(1230)),
    ("12.30", Some(1230), Some(1230)),
    ("12.300", Some(1230), Some(1230)),
    ("12.301", None, None),
    ("12.3000001", None, None),
    ("-0.05", None, Some(-5)),
    ("1e1", Some(1000), Some(1000)),
    ("0e-9", Some(0), Some(0)),
    ("-0", None, Some(0)),
    ("1e-30", None, None),
    ("1e18", None, None),
    ("\"12.3\"", None, None),
];

#[test]
fn reads_amounts(rt: HostRuntime) -> Tested {
    for (text, unsigned, signed) in AMOUNTS {
        expect_exact(&rt, &parse(rt.alloc(), text)?, 2, (*unsigned, *signed));
    }
    Ok(())
}

#[test]
fn reads_at_the_limits(rt: HostRuntime) {
    expect_exact(&rt, &number(u64::MAX), 0, (Some(u64::MAX), None));
    expect_exact(&rt, &parts(true, 0, -32768), 0, (Some(0), Some(0)));
    expect_exact(&rt, &parts(false, 7, -32768), 32768, (None, Some(-7)));
    expect_exact(&rt, &parts(true, 1, 32767), 65535, (None, None));
    expect_exact(&rt, &JsonValue::Number(NAN), 0, (None, None));
    expect_view(&rt, JsonValue::Null.at("a"), 0, (None, None));
}

#[test]
fn equals_integers(rt: HostRuntime) {
    let number = parts(true, 5, 2);
    expect(&rt, "500", number.eq_i64(500) && number.eq_u64(500));
    expect(&rt, "-1", parts(false, 1, 0).eq_i64(-1));
    expect(&rt, "1e20", !parts(true, 1, 20).eq_u64(1));
    let other = JsonValue::Boolean(false);
    expect(&rt, "false", !other.eq_i64(0) && !other.eq_u64(0));
}

#[test]
fn reads_views(rt: HostRuntime) -> Tested {
    let array = parse(rt.alloc(), "[-7,2.5]")?;
    let integer = array.at_index(0);
    expect(&rt, "-7", integer.eq_i64(-7) && !integer.eq_u64(7));
    let number = array.at_index(1);
    expect_eq(&rt, "u64 at 1", number.as_fixed_point_u64(1), Some(25));
    expect_eq(&rt, "i64 at 0", number.as_fixed_point_i64(0), Some(2));
    let missing = array.at_index(2);
    expect_eq(&rt, "missing", missing.as_i64(), None);
    expect_eq(&rt, "missing at 0", missing.as_fixed_point_i64(0), None);
    expect(&rt, "not 0", !missing.eq_i64(0));
    Ok(())
}
