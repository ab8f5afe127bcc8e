//! Numbers as integers, and the texts of decimals as numbers.

ghost use Rattle.std.specs.Prelude.{◌≡◌, IfSome, Some};
ghost use Rattle.jzon.specs.Decimal.{exact_fixed_point};
ghost use Rattle.jzon_serde.specs.Numbers.{Means, MeansWith};

use jzon::number::Number;
use jzon_base::digits::read_digits;

/// The integer that a number is, however it is written: 100, 1e2 and 100.0 are the same. `None` if it
/// is NaN, has a fraction, or more than 64 bits.
#[tactic(auto, using(crate::proofs::Whole::unsigned_whole, crate::proofs::Whole::opposite_whole))]
pub(crate) fn whole(number: Number) -> Option<i128>
    ensures { IfSome result (λ n. exact_fixed_point number 0 ≡ Some n) }
{
    match number.as_exact_fixed_point_u64(0) {
        Some(size) => Some(i128::from(size)),
        None => {
            let size = (-number).as_exact_fixed_point_u64(0)?;
            Some(-i128::from(size))
        }
    }
}

/// The number that a decimal's text means. `None` of another text (`NaN`), or if a `Number` can't hold
/// its digits.
pub(crate) fn number_of(text: &str) -> Option<Number>
    ensures { IfSome result (Means text.now) }
{
    match text.strip_prefix('-') {
        Some(digits) => number_with(false, digits),
        None => number_with(true, text),
    }
}

/// The number of this sign, and of a text without one. The last `true`: no digit may be lost.
#[tactic(auto, using(crate::proofs::Numerals::all_digits))]
fn number_with(positive: bool, text: &str) -> Option<Number>
    ensures { IfSome result (MeansWith positive text.now) }
{
    let numeral = fast_float::Numeral::scan(text.as_bytes());
    if numeral.len() != text.len() || !numeral.has_digits() {
        return None;
    }
    let (mantissa, exponent) = read_digits(
        numeral.whole(),
        numeral.fraction(),
        !numeral.is_exponent_negative(),
        numeral.exponent(),
        true,
    )
    .ok()?;
    Some(Number::from_parts_unchecked(positive, mantissa, exponent))
}
