//! What an error says of a value that isn't what is expected.

ghost use Rattle.std.specs.Prelude.{◌≡◌, ◌≢◌, IfOk, Some};
ghost use Rattle.jzon.specs.Readers.{text_in};
ghost use Rattle.jzon.specs.Value.{Value};
ghost use Rattle.jzon.specs.View.{view};
ghost use Rattle.jzon_pointer.specs.Found.{FoundIs, may_be_cut};
ghost use Rattle.jzon_pointer.specs.declared.error.parts.Found.TheVariants.{Hidden};
ghost use Rattle.jzon_pointer.specs.declared.pointer.Primitive.{Primitive};

use super::Found;
use jzon::JsonValue;
use jzon::number::Number;
use std::alloc::{AllocError, Global};
use std::result::Result;

/// How many characters of a string an error repeats at most.
pub const LONGEST: usize = 40;

/// What a value is that isn't what is expected. It fails only if memory lacks for a string's copy.
#[cold]
#[tactic(auto, using(crate::proofs::FoundViews::describing))]
pub fn found_in(alloc: Global, value: &JsonValue) -> Result<Found, AllocError>
    ensures found { IfOk result (λ f. FoundIs f (view value.now)) }
    ensures shown { IfOk result (λ f. (p : Primitive) → f ≢ Hidden p) }
{
    match value {
        JsonValue::Null => Ok(Found::Null),
        JsonValue::Boolean(truth) => Ok(Found::Boolean(*truth)),
        JsonValue::Number(number) => Ok(Found::Number(*number)),
        JsonValue::Short(text) => found_text(alloc, text.as_str()),
        JsonValue::String(text) => found_text(alloc, text.as_str()),
        JsonValue::Array(items) => Ok(Found::Array(items.len())),
        JsonValue::Object(object) => Ok(Found::Object(object.len())),
    }
}

/// What a string is: a copy, or if it has more than `LONGEST` characters, their count. It fails
/// only if memory lacks for the copy.
pub fn found_text(alloc: Global, text: &str) -> Result<Found, AllocError>
    ensures found { IfOk result (λ f. (v : Value) → text_in v ≡ Some text.now → FoundIs f v) }
    ensures shown { IfOk result (λ f. (p : Primitive) → f ≢ Hidden p) }
{
    let count = text.chars().count();
    if count > LONGEST {
        return Ok(Found::LongString(count));
    }
    Ok(Found::String(String::from_str(alloc, text)?))
}

/// Whether digits of a number may have been cut where its text was read (`What::Cut`): the first
/// that is cut didn't fit a `u64` after the mantissa, which then is a tenth of 2^64 or more. With
/// the exponent 0 only a fraction can be missing, which doesn't count. (A NaN has mantissa and
/// exponent 0.)
pub fn may_be_cut(number: Number) -> bool
    ensures { result ≡ may_be_cut number }
{
    let (_positive, mantissa, exponent) = number.as_parts();
    exponent != 0 && mantissa >= u64::MAX / 10
}
