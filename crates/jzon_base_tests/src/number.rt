//! Numbers and their parts.

use crate::common::{Parts, expect, expect_eq, number};
use jzon_base::number::{NAN, Number};
use std::test::Fail;

/// Parts, and those of the number that `from_parts` makes of them.
const STRIPPED: &[(Parts, Parts)] = &[
    ((true, 1000, -3), (true, 1, 0)),
    ((true, 1000, -2), (true, 10, 0)),
    ((true, 1000, -5), (true, 1, -2)),
    ((true, 150, -2), (true, 15, -1)),
    ((true, 100, -1), (true, 10, 0)),
    ((true, 100, -3), (true, 1, -1)),
    ((true, 100, -302), (true, 1, -300)),
    ((true, 0, -5), (true, 0, 0)),
    ((false, 0, -32768), (false, 0, 0)),
    ((true, 100, 0), (true, 100, 0)),
    ((false, 100, 5), (false, 100, 5)),
    ((true, 10, -32768), (true, 1, -32767)),
    ((true, 10000000000000000000, -32768), (true, 1, -32749)),
    ((true, u64::MAX, -1), (true, u64::MAX, -1)),
];

#[test]
fn strips_zeros(rt: HostRuntime) -> Result<(), Fail> {
    for ((positive, mantissa, exponent), stripped) in STRIPPED {
        let made = Number::from_parts(*positive, *mantissa, *exponent);
        expect_eq(&rt, "stripped", made.as_parts(), *stripped);
        let kept = number((*positive, *mantissa, *exponent));
        expect(&rt, "kept", made == kept);
    }
    let number = Number::from_parts(true, 150, -2);
    let shown = format!(in rt.alloc(); "{number}")?;
    expect_eq(&rt, "Display", shown.as_str(), "1.5");
    let shown = format!(in rt.alloc(); "{number:?}")?;
    let text = "Number { category: Positive, exponent: -1, mantissa: 15 }";
    expect_eq(&rt, "Debug", shown.as_str(), text);
    Ok(())
}

/// The parts of two numbers, and whether they are equal.
const COMPARED: &[(Parts, Parts, bool)] = &[
    ((true, 10, 32767), (true, 100, 32766), true),
    ((true, 10, 32767), (true, 1, 32767), false),
    ((false, 0, 7), (true, 0, 0), true),
    ((true, 0, -32768), (true, 0, 32767), true),
    ((true, 1, 20), (true, 1, 0), false),
    ((true, 1, 21), (true, 10, 0), false),
    ((true, 1, 64), (true, 0, 0), false),
    ((true, 5, 2), (true, 500, 0), true),
    ((true, 1, 0), (true, 10, -1), true),
    ((true, 1, 0), (false, 1, 0), false),
    ((true, 5, 19), (true, 5000000000000000000, 1), true),
    ((true, 10000000000000000000, -19), (true, 1, 0), true),
    ((true, 1, -32768), (true, 1, 32767), false),
    ((true, u64::MAX, 0), (true, 1844674407370955161, 1), false),
];

#[test]
fn compares(rt: HostRuntime) {
    for (one, other, same) in COMPARED {
        let (left, right) = (number(*one), number(*other));
        expect_eq(&rt, "left == right", left == right, *same);
        expect_eq(&rt, "right == left", right == left, *same);
        expect(&rt, "not NaN", left != NAN && NAN != left);
    }
    expect(&rt, "NaN", NAN == NAN && -NAN == NAN);
}

/// Parts, and whether the number is 0.
const SIGNS: &[(Parts, bool)] = &[
    ((true, 5, -2), false),
    ((false, 5, -2), false),
    ((true, 0, 7), true),
    ((false, 0, 0), true),
    ((true, 1, -32768), false),
    ((false, 18446744073709551615, 32767), false),
];

#[test]
fn has_its_parts_and_sign(rt: HostRuntime) {
    for (parts, is_zero) in SIGNS {
        let (positive, mantissa, exponent) = *parts;
        let number = number(*parts);
        expect_eq(&rt, "the parts", number.as_parts(), *parts);
        let negated = (!positive, mantissa, exponent);
        expect_eq(&rt, "the negated parts", (-number).as_parts(), negated);
        expect_eq(&rt, "the sign", number.is_sign_positive(), positive);
        expect_eq(&rt, "zero", number.is_zero(), *is_zero);
        expect_eq(&rt, "empty", number.is_empty(), *is_zero);
        expect(&rt, "no NaN", !number.is_nan());
    }
}

#[test]
fn is_not_a_number(rt: HostRuntime) {
    expect(&rt, "NaN", NAN.is_nan() && (-NAN).is_nan());
    expect(&rt, "the sign", !NAN.is_sign_positive() && !NAN.is_zero());
    expect(&rt, "empty", NAN.is_empty());
    expect_eq(&rt, "the parts", NAN.as_parts(), (false, 0, 0));
}
