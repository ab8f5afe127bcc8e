//! Numbers: exact decimals, and NaN (docs/RULES.md, "Numbers").

ghost use Rattle.std.specs.Prelude.{◌≡◌, ◌*◌, ◌^◌, ◌<◌, ◌≤◌, ◌==◌, ◌||◌, MatchOption, Some};
ghost use Rattle.std.specs.Cmp.{partial_equiv_from_equiv};
ghost use Rattle.jzon_base.specs.Decimal.{parts, parts_of, is_nan, is_zero, is_positive, negated, same_decimal, scaled, Decimal, StripsTo};
ghost use Rattle.jzon_base.specs.NumberText.{decimal_text};
ghost use Rattle.jzon_base.specs.Private.NumberFields.{decimal_of, HasNoParts, number_fields};
ghost use Rattle.jzon_base.specs.Private.Same.{same_decimal_equiv};

mod fixed_point;
mod from_integer;
mod to_integer;

use crate::util::print_dec::number_text;
use std::fmt;
use std::marker::Model;
pub use to_integer::NumberOutOfScope;

/// The sign of a number, or NaN.
#[derive(Clone, Copy, Debug)]
enum Category {
    Negative,
    Positive,
    Nan,
}

/// A number: NaN, or the exact decimal `mantissa * 10 ^ exponent` with a sign. The parts stay as
/// they were read or set: `1.50` and `1.5` have different parts and are equal. Digits that make the
/// mantissa too large are cut when a text is read, and no call tells whether some were.
// The gaps are 0. As fields they leave no padding, so that a copy field by field is one move.
#[derive(Clone, Copy)]
pub struct Number {
    category: Category,
    narrow_gap: u8,
    exponent: i16,
    wide_gap: u32,
    mantissa: u64,
}

impl Model for Number {
    ghost Value = { Decimal };

    ghost view = { λ n. decimal_of n.category n.mantissa n.exponent };

    ghost invariant = { λ n. HasNoParts n.category n.mantissa n.exponent
        × (n.narrow_gap ≡ 0) × (n.wide_gap ≡ 0) };

    ghost inverse = { number_fields };
}

/// Not a number. No text means it, and in a value it is printed as `null`. It equals only itself.
pub const NAN: Number = Number {
    category: Category::Nan,
    narrow_gap: 0,
    exponent: 0,
    wide_gap: 0,
    mantissa: 0,
};

impl Number {
    /// The number with exactly these parts, including trailing zeros of the mantissa. Nothing is
    /// unsafe about it; the name is the Rust crate's.
    pub fn from_parts_unchecked(positive: bool, mantissa: u64, exponent: i16) -> Number
        ensures { result ≡ parts positive mantissa exponent }
    {
        let category = if positive {
            Category::Positive
        } else {
            Category::Negative
        };
        Number {
            category,
            narrow_gap: 0,
            exponent,
            wide_gap: 0,
            mantissa,
        }
    }

    /// The number with this sign and decimal. Trailing zeros of the mantissa are stripped while the
    /// exponent is negative: `(true, 150, -2)` becomes `(true, 15, -1)`. A mantissa 0 with a
    /// negative exponent ends at exponent 0.
    pub fn from_parts(positive: bool, mantissa: u64, exponent: i16) -> Number
        ensures { StripsTo positive mantissa exponent result }
    {
        let mut mantissa = mantissa;
        let mut exponent = exponent;
        while exponent < 0 && mantissa % 10 == 0 {
            exponent += 1;
            mantissa /= 10;
        }
        Number::from_parts_unchecked(positive, mantissa, exponent)
    }

    /// Whether the sign is positive, the mantissa, and the exponent; `(false, 0, 0)` for NaN.
    pub fn as_parts(&self) -> (bool, u64, i16)
        ensures { result ≡ parts_of self.now }
    {
        (self.is_sign_positive(), self.mantissa, self.exponent)
    }

    /// Whether this is NaN.
    pub fn is_nan(&self) -> bool
        ensures { result ≡ is_nan self.now }
    {
        matches!(self.category, Category::Nan)
    }

    /// Whether the sign is positive. NaN's isn't.
    pub fn is_sign_positive(&self) -> bool
        ensures { result ≡ is_positive self.now }
    {
        matches!(self.category, Category::Positive)
    }

    /// Whether this is 0, of either sign. NaN isn't.
    pub fn is_zero(&self) -> bool
        ensures { result ≡ is_zero self.now }
    {
        self.mantissa == 0 && !self.is_nan()
    }

    /// Whether this is 0 or NaN.
    pub fn is_empty(&self) -> bool
        ensures { result ≡ (is_zero self.now || is_nan self.now) }
    {
        self.mantissa == 0 || self.is_nan()
    }

    /// A copy, made field by field: `*self` would go through a slot of the stack on its way into a
    /// list.
    #[doc(hidden)]
    #[inline(always)]
    pub fn copy_fields(&self) -> Number
        ensures { result ≡ self.now }
    {
        Number {
            category: self.category,
            narrow_gap: self.narrow_gap,
            exponent: self.exponent,
            wide_gap: self.wide_gap,
            mantissa: self.mantissa,
        }
    }
}

/// The opposite sign, of 0 too. NaN stays NaN.
impl std::ops::Neg for Number {
    type Output = Number;

    ghost neg_gives = { λ n r. r ≡ negated n };

    fn neg(self) -> Number {
        let category = match self.category {
            Category::Negative => Category::Positive,
            Category::Positive => Category::Negative,
            Category::Nan => Category::Nan,
        };
        Number { category, ..self }
    }
}

/// Numbers are equal if their signs and exact decimals are, whatever their parts. All zeros are
/// equal, and NaN equals only itself.
impl PartialEq for Number {
    ghost eq = { same_decimal };

    ghost laws = { partial_equiv_from_equiv same_decimal_equiv };

    #[tactic(auto, using(crate::specs::Private::Same::zero_rules))]
    fn eq(&self, other: &Number) -> bool {
        let (positive, mantissa, exponent) = self.as_parts();
        let (other_positive, other_mantissa, other_exponent) = other.as_parts();
        // Equal parts need no arithmetic. NaN has the mantissa 0, so neither number is NaN here.
        if mantissa != 0 && mantissa == other_mantissa && exponent == other_exponent {
            return positive == other_positive;
        }
        if self.is_nan() || other.is_nan() {
            return self.is_nan() && other.is_nan();
        }
        if mantissa == 0 || other_mantissa == 0 {
            return mantissa == other_mantissa;
        }
        positive == other_positive
            && same_magnitude(mantissa, exponent, other_mantissa, other_exponent)
    }
}

impl Eq for Number {
    ghost laws = { same_decimal_equiv };
}

/// The fields without the gaps.
impl fmt::Debug for Number {
    fn fmt<W: fmt::Write>(&self, f: &mut fmt::Formatter<W>) -> fmt::Result {
        f.debug_struct("Number")
            .field("category", &self.category)
            .field("exponent", &self.exponent)
            .field("mantissa", &self.mantissa)
            .finish()
    }
}

/// Prints the number as in JSON text (docs/RULES.md, "Printed numbers"), and NaN as `nan`. Format
/// flags are ignored.
impl fmt::Display for Number {
    ghost output = { λ n. Some (decimal_text n) };

    fn fmt<W: fmt::Write>(&self, f: &mut fmt::Formatter<W>) -> fmt::Result {
        if self.is_nan() {
            return f.write_str("nan");
        }
        let (positive, mantissa, exponent) = self.as_parts();
        f.write_str(number_text(positive, mantissa, exponent).as_str())
    }
}

/// Whether `mantissa * 10 ^ exponent` of both are equal: that of the higher exponent is scaled to
/// the lower one. If it then doesn't fit in a `u64`, they differ.
#[tactic(auto, using(crate::proofs::Numbers::Scaling::same_rules))]
fn same_magnitude(mantissa: u64, exponent: i16, other_mantissa: u64, other_exponent: i16) -> bool
    requires left { 0 < mantissa }
    requires right { 0 < other_mantissa }
    ensures { result ≡ (scaled mantissa exponent == scaled other_mantissa other_exponent) }
{
    let power = u32::from(exponent.abs_diff(other_exponent));
    if exponent >= other_exponent {
        times_power(mantissa, power) == Some(other_mantissa)
    } else {
        times_power(other_mantissa, power) == Some(mantissa)
    }
}

/// `mantissa * 10 ^ power`, or `None` if that is 2^64 or more. It is if `10 ^ power` alone is, since
/// the mantissa isn't 0.
#[tactic(auto, using(crate::proofs::Numbers::Powers::too_large))]
fn times_power(mantissa: u64, power: u32) -> Option<u64>
    requires { 0 < mantissa }
    ensures { MatchOption result (2 ^ 64 ≤ mantissa * 10 ^ power) (λ r. r ≡ mantissa * 10 ^ power) }
{
    mantissa.checked_mul(10u64.checked_pow(power)?)
}
