//! Reading values as integers (docs/RULES.md, "Integer readings" and "Fixed-point readings"). A
//! number is `mantissa * 10 ^ exponent` with a sign, or NaN. Of other values, `as_` calls return
//! `None`.

ghost use Rattle.std.specs.Prelude.{◌≡◌, ◌<◌, ◌^◌, pos, FitsSigned};
ghost use Rattle.std.specs.Int.{w8, w16, w32, w64};
ghost use Rattle.jzon_base.specs.Decimal.{integer_parts, SomeWhere};
ghost use Rattle.jzon_tree.specs.Readers.{integer_in, unsigned_in, fixed_point_in, unsigned_fixed_point_in, exact_fixed_point_in, exact_unsigned_fixed_point_in};
ghost use Rattle.jzon_tree.specs.Same.{same};
ghost use Rattle.jzon_tree.specs.Value.{number};
ghost use Rattle.jzon_tree.specs.View.{view};

use crate::value::JsonValue;

impl JsonValue {
    /// The number as a `u64`, if its exponent is 0, its sign is positive, and it fits, else `None`.
    /// So most integers with a point or an exponent, as `1.0`, `1e2` and `100e-2`, are `None`:
    /// `as_exact_fixed_point_u64(0)` returns these.
    ///
    /// ```rust
    /// config.at("limits").at("timeout").as_u64().unwrap_or(30)
    /// ```
    pub fn as_u64(&self) -> Option<u64>
        ensures { SomeWhere (unsigned_in (view self.now)) (λ n. n < 2 ^ 64) result }
    {
        u64::try_from(self.as_number()?).ok()
    }

    /// As `as_u64`, for a `u32`.
    pub fn as_u32(&self) -> Option<u32>
        ensures { SomeWhere (unsigned_in (view self.now)) (λ n. n < 2 ^ 32) result }
    {
        u32::try_from(self.as_number()?).ok()
    }

    /// As `as_u64`, for a `u16`.
    pub fn as_u16(&self) -> Option<u16>
        ensures { SomeWhere (unsigned_in (view self.now)) (λ n. n < 2 ^ 16) result }
    {
        u16::try_from(self.as_number()?).ok()
    }

    /// As `as_u64`, for a `u8`.
    pub fn as_u8(&self) -> Option<u8>
        ensures { SomeWhere (unsigned_in (view self.now)) (λ n. n < 2 ^ 8) result }
    {
        u8::try_from(self.as_number()?).ok()
    }

    /// As `as_u64`, for a `usize`.
    pub fn as_usize(&self) -> Option<usize>
        ensures { SomeWhere (unsigned_in (view self.now)) (λ n. n < 2 ^ 64) result }
    {
        usize::try_from(self.as_number()?).ok()
    }

    /// The number as an `i64`, if its exponent is 0 and it fits, else `None`. For integers with a
    /// point or an exponent there is `as_exact_fixed_point_i64(0)`.
    pub fn as_i64(&self) -> Option<i64>
        ensures { SomeWhere (integer_in (view self.now)) (FitsSigned w64) result }
    {
        i64::try_from(self.as_number()?).ok()
    }

    /// As `as_i64`, for an `i32`.
    pub fn as_i32(&self) -> Option<i32>
        ensures { SomeWhere (integer_in (view self.now)) (FitsSigned w32) result }
    {
        i32::try_from(self.as_number()?).ok()
    }

    /// As `as_i64`, for an `i16`.
    pub fn as_i16(&self) -> Option<i16>
        ensures { SomeWhere (integer_in (view self.now)) (FitsSigned w16) result }
    {
        i16::try_from(self.as_number()?).ok()
    }

    /// As `as_i64`, for an `i8`.
    pub fn as_i8(&self) -> Option<i8>
        ensures { SomeWhere (integer_in (view self.now)) (FitsSigned w8) result }
    {
        i8::try_from(self.as_number()?).ok()
    }

    /// As `as_i64`, for an `isize`.
    pub fn as_isize(&self) -> Option<isize>
        ensures { SomeWhere (integer_in (view self.now)) (FitsSigned w64) result }
    {
        isize::try_from(self.as_number()?).ok()
    }

    /// The number times `10 ^ point`, truncated: with 2 (decimal places), `5.99` and `5.999` are 599.
    /// `None` for NaN, for a negative sign, and if it doesn't fit.
    pub fn as_fixed_point_u64(&self, point: u16) -> Option<u64>
        ensures { SomeWhere (unsigned_fixed_point_in (view self.now) point)
            (λ n. n < 2 ^ 64) result }
    {
        self.as_number()?.as_fixed_point_u64(point)
    }

    /// As `as_fixed_point_u64`, with either sign: with 2, `-5.99` and `-5.999` are -599.
    pub fn as_fixed_point_i64(&self, point: u16) -> Option<i64>
        ensures { SomeWhere (fixed_point_in (view self.now) point) (FitsSigned w64) result }
    {
        self.as_number()?.as_fixed_point_i64(point)
    }

    /// As `as_fixed_point_u64`, and `None` if a digit other than 0 would be cut: with 2, `5.990` is
    /// 599, and `5.999` is `None`. Digits that `parse` cut don't count; only an exact `Reading`
    /// rejects them.
    ///
    /// ```rust
    /// value.as_exact_fixed_point_u64(0)   // Some(100) of 100, 1e2 and 100.0
    /// ```
    pub fn as_exact_fixed_point_u64(&self, point: u16) -> Option<u64>
        ensures { SomeWhere (exact_unsigned_fixed_point_in (view self.now) point)
            (λ n. n < 2 ^ 64) result }
    {
        self.as_number()?.as_exact_fixed_point_u64(point)
    }

    /// As `as_exact_fixed_point_u64`, with either sign.
    ///
    /// ```rust
    /// order.at("price").as_exact_fixed_point_i64(2)   // Some(1999) of 19.99
    /// ```
    pub fn as_exact_fixed_point_i64(&self, point: u16) -> Option<i64>
        ensures { SomeWhere (exact_fixed_point_in (view self.now) point) (FitsSigned w64) result }
    {
        self.as_number()?.as_exact_fixed_point_i64(point)
    }

    /// Whether it is a number equal to `other`: `5e2` equals 500.
    pub fn eq_i64(&self, other: i64) -> bool
        ensures { result ≡ same (view self.now) (number (integer_parts other)) }
    {
        self.as_number().is_some_and(|number| number.eq_i64(other))
    }

    /// As `eq_i64`, for a `u64`.
    pub fn eq_u64(&self, other: u64) -> bool
        ensures { result ≡ same (view self.now) (number (integer_parts (pos other))) }
    {
        self.as_number().is_some_and(|number| number.eq_u64(other))
    }
}
