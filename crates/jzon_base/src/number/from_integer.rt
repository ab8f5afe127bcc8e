//! Integers as numbers (docs/RULES.md, "Calls on numbers"). The mantissa is the magnitude, and the
//! exponent 0; 0 is positive.

ghost use Rattle.std.specs.Prelude.{◌≡◌, pos, true};
ghost use Rattle.jzon_base.specs.Decimal.{integer_parts, same_decimal};

use super::Number;

impl Number {
    /// Whether this equals the integer `value`, whatever its parts are: `5e2` equals 500.
    pub fn eq_i64(&self, value: i64) -> bool
        ensures { result ≡ same_decimal self.now (integer_parts value) }
    {
        *self == Number::from(value)
    }

    /// Whether this equals the integer `value`, whatever its parts are.
    pub fn eq_u64(&self, value: u64) -> bool
        ensures { result ≡ same_decimal self.now (integer_parts (pos value)) }
    {
        *self == Number::from(value)
    }
}

impl From<u8> for Number {
    ghost from_gives = { λ n number. number ≡ integer_parts (pos n) };

    fn from(value: u8) -> Number {
        Number::from_parts_unchecked(true, u64::from(value), 0)
    }
}

impl From<u16> for Number {
    ghost from_gives = { λ n number. number ≡ integer_parts (pos n) };

    fn from(value: u16) -> Number {
        Number::from_parts_unchecked(true, u64::from(value), 0)
    }
}

impl From<u32> for Number {
    ghost from_gives = { λ n number. number ≡ integer_parts (pos n) };

    fn from(value: u32) -> Number {
        Number::from_parts_unchecked(true, u64::from(value), 0)
    }
}

impl From<u64> for Number {
    ghost from_gives = { λ n number. number ≡ integer_parts (pos n) };

    fn from(value: u64) -> Number {
        Number::from_parts_unchecked(true, value, 0)
    }
}

impl From<usize> for Number {
    ghost from_gives = { λ n number. number ≡ integer_parts (pos n) };

    fn from(value: usize) -> Number {
        Number::from_parts_unchecked(true, value as u64, 0)
    }
}

impl From<i8> for Number {
    ghost from_gives = { λ n number. number ≡ integer_parts n };

    fn from(value: i8) -> Number {
        Number::from_parts_unchecked(value >= 0, u64::from(value.unsigned_abs()), 0)
    }
}

impl From<i16> for Number {
    ghost from_gives = { λ n number. number ≡ integer_parts n };

    fn from(value: i16) -> Number {
        Number::from_parts_unchecked(value >= 0, u64::from(value.unsigned_abs()), 0)
    }
}

impl From<i32> for Number {
    ghost from_gives = { λ n number. number ≡ integer_parts n };

    fn from(value: i32) -> Number {
        Number::from_parts_unchecked(value >= 0, u64::from(value.unsigned_abs()), 0)
    }
}

impl From<i64> for Number {
    ghost from_gives = { λ n number. number ≡ integer_parts n };

    fn from(value: i64) -> Number {
        Number::from_parts_unchecked(value >= 0, value.unsigned_abs(), 0)
    }
}

impl From<isize> for Number {
    ghost from_gives = { λ n number. number ≡ integer_parts n };

    fn from(value: isize) -> Number {
        Number::from_parts_unchecked(value >= 0, value.unsigned_abs() as u64, 0)
    }
}
