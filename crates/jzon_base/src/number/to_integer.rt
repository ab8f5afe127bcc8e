//! Numbers of exponent 0 as integers (docs/RULES.md, "Integer readings"). For others, such as
//! `1.0`, `5e2` and `100e-2`, there is `as_exact_fixed_point_u64(0)`.

ghost use Rattle.std.specs.Prelude.{◌<◌, ◌^◌, FitsSigned};
ghost use Rattle.std.specs.Int.{w8, w16, w32, w64};
ghost use Rattle.std.specs.Option.{SomeIff};
ghost use Rattle.jzon_base.specs.Decimal.{integer_of, signed, unsigned_of, OkWhere};

use super::Number;

/// The number can't be converted: it is NaN, its exponent isn't 0, as that of `1.0` and `1e2`, its
/// sign is negative, even that of -0, and the type is unsigned, or it doesn't fit.
#[derive(Clone, Copy, Debug, PartialEq)]
pub struct NumberOutOfScope;

impl Number {
    /// The mantissa, if the sign is positive and the exponent is 0. (NaN's sign isn't positive.)
    fn unsigned(self) -> Result<u64, NumberOutOfScope>
        ensures { OkWhere (unsigned_of self) (λ n. n < 2 ^ 64) result }
    {
        match self.as_parts() {
            (true, mantissa, 0) => Ok(mantissa),
            _ => Err(NumberOutOfScope),
        }
    }

    /// The mantissa with its sign, if the exponent is 0 and the integer fits. NaN is tested first,
    /// because `as_parts` returns exponent 0 for it.
    fn signed(self) -> Result<i64, NumberOutOfScope>
        ensures { OkWhere (integer_of self) (FitsSigned w64) result }
    {
        if self.is_nan() {
            return Err(NumberOutOfScope);
        }
        match self.as_parts() {
            (positive, mantissa, 0) => with_sign(positive, mantissa).ok_or(NumberOutOfScope),
            _ => Err(NumberOutOfScope),
        }
    }
}

/// The integer of this sign and magnitude, or `None` if it doesn't fit in an `i64`.
pub(super) fn with_sign(positive: bool, magnitude: u64) -> Option<i64>
    ensures { let z = signed positive magnitude in SomeIff result (FitsSigned w64 z) z }
{
    if positive {
        i64::try_from(magnitude).ok()
    } else {
        // Not `-magnitude`: the magnitude of `i64::MIN` doesn't fit in an `i64`.
        0i64.checked_sub_unsigned(magnitude)
    }
}

impl TryFrom<Number> for u8 {
    type Error = NumberOutOfScope;

    ghost try_from_gives = { λ number r. OkWhere (unsigned_of number) (λ n. n < 2 ^ 8) r };

    fn try_from(value: Number) -> Result<u8, NumberOutOfScope> {
        u8::try_from(value.unsigned()?).map_err(|_| NumberOutOfScope)
    }
}

impl TryFrom<Number> for u16 {
    type Error = NumberOutOfScope;

    ghost try_from_gives = { λ number r. OkWhere (unsigned_of number) (λ n. n < 2 ^ 16) r };

    fn try_from(value: Number) -> Result<u16, NumberOutOfScope> {
        u16::try_from(value.unsigned()?).map_err(|_| NumberOutOfScope)
    }
}

impl TryFrom<Number> for u32 {
    type Error = NumberOutOfScope;

    ghost try_from_gives = { λ number r. OkWhere (unsigned_of number) (λ n. n < 2 ^ 32) r };

    fn try_from(value: Number) -> Result<u32, NumberOutOfScope> {
        u32::try_from(value.unsigned()?).map_err(|_| NumberOutOfScope)
    }
}

impl TryFrom<Number> for u64 {
    type Error = NumberOutOfScope;

    ghost try_from_gives = { λ number r. OkWhere (unsigned_of number) (λ n. n < 2 ^ 64) r };

    fn try_from(value: Number) -> Result<u64, NumberOutOfScope> {
        value.unsigned()
    }
}

impl TryFrom<Number> for usize {
    type Error = NumberOutOfScope;

    ghost try_from_gives = { λ number r. OkWhere (unsigned_of number) (λ n. n < 2 ^ 64) r };

    fn try_from(value: Number) -> Result<usize, NumberOutOfScope> {
        usize::try_from(value.unsigned()?).map_err(|_| NumberOutOfScope)
    }
}

impl TryFrom<Number> for i8 {
    type Error = NumberOutOfScope;

    ghost try_from_gives = { λ number r. OkWhere (integer_of number) (FitsSigned w8) r };

    fn try_from(value: Number) -> Result<i8, NumberOutOfScope> {
        i8::try_from(value.signed()?).map_err(|_| NumberOutOfScope)
    }
}

impl TryFrom<Number> for i16 {
    type Error = NumberOutOfScope;

    ghost try_from_gives = { λ number r. OkWhere (integer_of number) (FitsSigned w16) r };

    fn try_from(value: Number) -> Result<i16, NumberOutOfScope> {
        i16::try_from(value.signed()?).map_err(|_| NumberOutOfScope)
    }
}

impl TryFrom<Number> for i32 {
    type Error = NumberOutOfScope;

    ghost try_from_gives = { λ number r. OkWhere (integer_of number) (FitsSigned w32) r };

    fn try_from(value: Number) -> Result<i32, NumberOutOfScope> {
        i32::try_from(value.signed()?).map_err(|_| NumberOutOfScope)
    }
}

impl TryFrom<Number> for i64 {
    type Error = NumberOutOfScope;

    ghost try_from_gives = { λ number r. OkWhere (integer_of number) (FitsSigned w64) r };

    fn try_from(value: Number) -> Result<i64, NumberOutOfScope> {
        value.signed()
    }
}

impl TryFrom<Number> for isize {
    type Error = NumberOutOfScope;

    ghost try_from_gives = { λ number r. OkWhere (integer_of number) (FitsSigned w64) r };

    fn try_from(value: Number) -> Result<isize, NumberOutOfScope> {
        isize::try_from(value.signed()?).map_err(|_| NumberOutOfScope)
    }
}
