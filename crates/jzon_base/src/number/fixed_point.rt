//! Numbers as fixed-point integers (docs/RULES.md, "Fixed-point readings"):
//! `mantissa * 10 ^ (exponent + point)`, so that `point` is the number of decimal places that are
//! kept. By the contract lines `equal`, the integer with exponent `-point`, if that is an `i16`,
//! equals the number.

ghost use Rattle.std.specs.Prelude.{◌≡◌, pos, ◌/◌, ◌%◌, ◌==◌, ◌+ℤ◌, ◌<◌, ◌≤◌, ◌^◌, FitsSigned, IfSome, IsTrue, true};
ghost use Rattle.std.specs.Int.{w64};
ghost use Rattle.std.specs.Option.{SomeIff};
ghost use Rattle.jzon_base.specs.Decimal.{fixed_point, unsigned_fixed_point, whole_part, SomeWhere, exact_fixed_point, exact_unsigned_fixed_point, is_whole, is_whole_at, integer_at, same_decimal, IsExactAt};

use super::to_integer::with_sign;
use super::{Number, times_power};

impl Number {
    /// The number times `10 ^ point`, truncated to an integer: at point 2, the decimal places of
    /// euros, 5.99 is 599 and 12.301 is 1230. `None` for NaN, for a negative sign, even of -0, and
    /// if it doesn't fit.
    pub fn as_fixed_point_u64(&self, point: u16) -> Option<u64>
        ensures { SomeWhere (unsigned_fixed_point self.now point) (λ n. n < 2 ^ 64) result }
    {
        if !self.is_sign_positive() {
            return None;
        }
        let (_, mantissa, exponent) = self.as_parts();
        whole_part(mantissa, exponent, point)
    }

    /// The number times `10 ^ point`, truncated before the sign is applied: at point 1, -12.39 is
    /// -123. `None` for NaN, and if it doesn't fit.
    pub fn as_fixed_point_i64(&self, point: u16) -> Option<i64>
        ensures { SomeWhere (fixed_point self.now point) (FitsSigned w64) result }
    {
        if self.is_nan() {
            return None;
        }
        let (positive, mantissa, exponent) = self.as_parts();
        with_sign(positive, whole_part(mantissa, exponent, point)?)
    }

    /// The number times `10 ^ point`, if that is an integer: at point 2, 12.30 is 1230, and 12.301
    /// is `None`. At point 0 it is the integer itself, however written: 100, 1e2 or 100.0. `None`
    /// also for NaN, for a negative sign, even of -0, and if it doesn't fit. Exact of the number,
    /// not of a text whose digits were cut.
    pub fn as_exact_fixed_point_u64(&self, point: u16) -> Option<u64>
        ensures number { SomeWhere (exact_unsigned_fixed_point self.now point)
            (λ n. n < 2 ^ 64) result }
        ensures equal { IfSome result (λ n. point ≤ 32768
            → IsTrue (same_decimal self.now (integer_at (pos n) point))) }
    {
        if self.is_exact_at(point) {
            self.as_fixed_point_u64(point)
        } else {
            None
        }
    }

    /// The number times `10 ^ point`, with its sign, if that is an integer: at point 2, -12.30 is
    /// -1230. `None` if it isn't, for NaN, and if it doesn't fit. Exact of the number, not of a
    /// text whose digits were cut.
    pub fn as_exact_fixed_point_i64(&self, point: u16) -> Option<i64>
        ensures number { SomeWhere (exact_fixed_point self.now point) (FitsSigned w64) result }
        ensures equal { IfSome result (λ n. point ≤ 32768
            → IsTrue (same_decimal self.now (integer_at n point))) }
    {
        if self.is_exact_at(point) {
            self.as_fixed_point_i64(point)
        } else {
            None
        }
    }

    /// Whether the number times `10 ^ point` is an integer. NaN isn't.
    fn is_exact_at(&self, point: u16) -> bool
        ensures whole { result ≡ is_whole_at self.now point }
        ensures exact { result ≡ true → IsExactAt self.now point }
    {
        if self.is_nan() {
            return false;
        }
        let (_, mantissa, exponent) = self.as_parts();
        is_whole(mantissa, exponent, point)
    }
}

/// Whether `mantissa * 10 ^ (exponent + point)` is an integer.
fn is_whole(mantissa: u64, exponent: i16, point: u16) -> bool
    ensures { result ≡ is_whole mantissa (exponent +ℤ pos point) }
{
    let power = i32::from(exponent) + i32::from(point);
    if power >= 0 {
        return true;
    }
    match 10u64.checked_pow(power.unsigned_abs()) {
        Some(divisor) => mantissa % divisor == 0,
        // The divisor is larger than any mantissa.
        None => mantissa == 0,
    }
}

/// `mantissa * 10 ^ (exponent + point)`, truncated to an integer; `None` if that is 2^64 or more.
#[tactic(auto, using(crate::proofs::Numbers::Scaling::over_rules))]
fn whole_part(mantissa: u64, exponent: i16, point: u16) -> Option<u64>
    ensures { let n = whole_part mantissa (exponent +ℤ pos point) in SomeIff result (n < 2 ^ 64) n }
{
    if mantissa == 0 {
        return Some(0);
    }
    let power = i32::from(exponent) + i32::from(point);
    if power >= 0 {
        return times_power(mantissa, power as u32);
    }
    match 10u64.checked_pow(power.unsigned_abs()) {
        Some(divisor) => Some(mantissa / divisor),
        // The divisor is larger than any mantissa.
        None => Some(0),
    }
}
