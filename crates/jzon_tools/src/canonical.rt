//! Canonical texts, which aren't those of RFC 8785, and copies with sorted keys.
//!
//! The canonical text is the compact text of a copy, in which keys are sorted by their bytes at
//! every depth, each zero is `0`, and no other mantissa ends in a zero. RFC 8785 sorts keys by
//! UTF-16 units, and its numbers are those of doubles: where it has `1e+21` and `1e-7`, a canonical
//! text has `1e21` and `0.0000001`.

ghost use Rattle.std.specs.Prelude.{◌≡◌, ◌↔◌, ◌⊎◌, [], false, true, IfErr, IfOk, None, OnOk, Some, chars, map, string_bytes};
ghost use Rattle.std.specs.List.{list_any};
ghost use Rattle.std.specs.Slice.Iter.{iter_rest};
ghost use Rattle.jzon.specs.Answer.{IsErrorUnlessMemory};
ghost use Rattle.jzon.specs.DisplayText.{comma_text};
ghost use Rattle.jzon.specs.Generator.{Adds, Just};
ghost use Rattle.jzon.specs.Lawful.{HasNoNan};
ghost use Rattle.jzon.specs.Value.{array};
ghost use Rattle.jzon.specs.View.{view, view_object, view_values};
ghost use Rattle.jzon_pointer.specs.Errors.{is_not_a_number, memory, not_a_number};
ghost use Rattle.jzon_tools.specs.Canonical as canonical;
ghost use Rattle.jzon_tools.specs.Canonical.{has_nan, have_nan, normal_number};
ghost use Rattle.jzon.specs.Reading.{strict_exact};
ghost use Rattle.jzon_tools.specs.Canonical.{CanonicalLaw, IsCanonicalOf, OneTextLaw};

mod sorted_copies;

use jzon::codegen::{DumpGenerator, Generator};
use jzon::number::Number;
use jzon::object::Object;
use jzon::{JsonValue, Reading, Result, parse_as};
use jzon_pointer::error::Error;
use sorted_copies::sorted_entries;
pub use sorted_copies::{sort_keys, sorted};
use std::alloc::{AllocError, Global};
use std::{io, slice};

/// The canonical text of a value without NaN. After an `Err`, `is_not_a_number` says whether a NaN
/// is in the value, not where, or memory lacks.
///
/// ```rust
/// let mut order = jzon::parse(alloc, r#"{"to": "b", "sum": 1.50, "at": [-0, 1e2]}"#)?;
/// let text = canonical_text(alloc, &order)?;   // {"at":[0,100],"sum":1.5,"to":"b"}
/// ```
#[tactic(auto, using(crate::proofs::NanLaws::nan_laws))]
pub fn canonical_text(alloc: Global, value: &JsonValue) -> std::result::Result<String, Error>
    ensures text { IfOk result (λ text. string_bytes text ≡ canonical.canonical (view value.now)) }
    ensures number { OnOk result (HasNoNan (view value.now)) }
    ensures error { IfErr result (λ e. (e ≡ memory) ⊎ (e ≡ not_a_number)) }
    ensures nan { IfErr result (λ e. (is_not_a_number e ≡ true)
        ↔ (HasNoNan (view value.now) → ⊥)) }
{
    match text_of(alloc, value) {
        Ok(text) => Ok(text),
        // The writing ends at the first NaN, but also before it, if an allocation fails.
        Err(_) if has_nan(value) => Err(Error::NOT_A_NUMBER),
        Err(_) => Err(Error::MEMORY),
    }
}

/// The canonical text, unless a NaN is met or an allocation fails.
fn text_of(alloc: Global, value: &JsonValue) -> std::result::Result<String, Stopped>
    ensures text { IfOk result (λ text. string_bytes text ≡ canonical.canonical (view value.now)) }
    ensures nan { OnOk result (has_nan (view value.now) ≡ false) }
{
    let mut text = DumpGenerator::new(alloc);
    write_value(alloc, &mut text, value)?;
    text.consume().map_err(|_| Stopped)
}

/// The canonical text of the value that a text means. The text is read strictly and exactly, so that
/// no key and no digit is lost: two texts have the same result if and only if they mean equal values.
///
/// An error is that of `parse_as`, as no text means NaN, or `OutOfMemory`.
///
/// ```rust
/// let text = of_text(alloc, r#"{"b": 1.50, "a": [-0]}"#)?;   // {"a":[0],"b":1.5}
/// ```
pub fn of_text(alloc: Global, source: &str) -> Result<String>
    ensures text { IfOk result (λ text. IsCanonicalOf (chars source.now) (string_bytes text)) }
    ensures law { OneTextLaw }
    ensures error { IfErr result (IsErrorUnlessMemory strict_exact (chars source.now)) }
{
    let value = parse_as(alloc, source, &Reading::LOSSLESS)?;
    text_of(alloc, &value).map_err(|_| jzon::Error::OutOfMemory)
}

/// Two values without NaN are equal if and only if their canonical texts are the same. It does
/// nothing: the law is its contract.
pub fn law()
    ensures { CanonicalLaw }
{}

#[cycle(nan)]
#[tactic(auto, using(crate::proofs::Views::views))]
fn has_nan(value: &JsonValue) -> bool
    ensures { result ≡ has_nan (view value.now) }
{
    match value {
        JsonValue::Number(number) => number.is_nan(),
        JsonValue::Array(items) => any_has_nan(items.iter()),
        JsonValue::Object(object) => any_has_nan(object.values()),
        _ => false,
    }
}

#[cycle(nan)]
fn any_has_nan(values: slice::Iter<'_, JsonValue>) -> bool
    ensures { result ≡ list_any has_nan (map view (iter_rest values.entry)) }
{
    for value in values {
        if has_nan(value) {
            return true;
        }
    }
    false
}

/// A NaN was met, or an allocation failed.
#[derive(Drop)]
struct Stopped;

impl From<io::Error> for Stopped {
    fn from(_error: io::Error) -> Stopped {
        Stopped
    }
}

impl From<AllocError> for Stopped {
    fn from(_error: AllocError) -> Stopped {
        Stopped
    }
}

/// Whether the writing goes on.
type Step = std::result::Result<(), Stopped>;

/// Adds the canonical text of a value, until a NaN is met. Inlined into the loops, so that only
/// containers recurse.
#[inline(always)]
#[cycle(write)]
#[tactic(auto, using(crate::proofs::Views::views))]
fn write_value<G: Generator>(alloc: Global, text: &mut G, value: &JsonValue) -> Step
    ensures text { OnOk result (Adds (Just (canonical.canonical (view value.now)))
        (G.meaning text.old).out (G.meaning text.new).out) }
    ensures nan { OnOk result (has_nan (view value.now) ≡ false) }
{
    match value {
        JsonValue::Null => text.write(b"null")?,
        JsonValue::Short(string) => text.write_string(string.as_str())?,
        JsonValue::String(string) => text.write_string(string.as_str())?,
        JsonValue::Number(number) if number.is_nan() => return Err(Stopped),
        JsonValue::Number(number) => text.write_number(&normal_number(*number))?,
        JsonValue::Boolean(true) => text.write(b"true")?,
        JsonValue::Boolean(false) => text.write(b"false")?,
        JsonValue::Object(object) => write_object(alloc, text, object)?,
        JsonValue::Array(items) => write_array(alloc, text, items)?,
    }
    Ok(())
}

/// Adds the canonical text of an array, until a NaN is met.
#[inline(never)]
#[cycle(write)]
fn write_array<G: Generator>(alloc: Global, text: &mut G, items: &[JsonValue]) -> Step
    ensures text { OnOk result (Adds (Just (canonical.canonical (array (view_values items.now))))
        (G.meaning text.old).out (G.meaning text.new).out) }
    ensures nan { OnOk result (have_nan (view_values items.now) ≡ false) }
{
    text.write_char(b'[')?;
    for (index, item) in items.iter().enumerate() {
        write_comma(text, index > 0)?;
        write_value(alloc, text, item)?;
    }
    text.write_char(b']')?;
    Ok(())
}

/// Adds the canonical text of an object, in the order of its keys, until a NaN is met.
#[inline(never)]
#[cycle(write)]
fn write_object<G: Generator>(alloc: Global, text: &mut G, object: &Object) -> Step
    ensures text { OnOk result (Adds (Just (canonical.canonical (view_object object.now)))
        (G.meaning text.old).out (G.meaning text.new).out) }
    ensures nan { OnOk result (has_nan (view_object object.now) ≡ false) }
{
    let entries = sorted_entries(alloc, object)?;
    text.write_char(b'{')?;
    for (index, entry) in entries.iter().enumerate() {
        let (key, value) = *entry;
        write_comma(text, index > 0)?;
        text.write_string(key)?;
        text.write_char(b':')?;
        write_value(alloc, text, value)?;
    }
    text.write_char(b'}')?;
    Ok(())
}

/// Adds a comma if one is due.
fn write_comma<G: Generator>(text: &mut G, comma: bool) -> Step
    ensures { OnOk result (Adds (Just (comma_text comma)) (G.meaning text.old).out
        (G.meaning text.new).out) }
{
    if comma {
        text.write_char(b',')?;
    }
    Ok(())
}

/// The number with `+0` for each zero; NaN stays; any other without the last zeros of its mantissa.
fn normal_number(number: Number) -> Number
    ensures { result ≡ normal_number number }
{
    if number.is_nan() {
        return number;
    }
    let (positive, mantissa, exponent) = number.as_parts();
    if mantissa == 0 {
        return Number::from_parts_unchecked(true, 0, 0);
    }
    let (mantissa, exponent) = stripped(mantissa, exponent);
    Number::from_parts_unchecked(positive, mantissa, exponent)
}

/// The mantissa without its last zeros, as far as the exponent, which counts them, has room. A
/// `u64` has at most 20 digits.
fn stripped(mantissa: u64, exponent: i16) -> (u64, i16)
    ensures { result ≡ canonical.stripped 20 mantissa exponent }
{
    let mut digits = mantissa;
    let mut power = exponent;
    for _zero in 0u8..20 {
        if digits % 10 != 0 || power == i16::MAX {
            break;
        }
        digits /= 10;
        power += 1;
    }
    (digits, power)
}
