//! Reads numbers (RFC 8259, section 6; docs/RULES.md, "Numbers"). `whole` are the digits before the
//! point, `fraction` those after it. A digit is *too many* beyond the limits on digits, and *lost*
//! if it is dropped and isn't 0. Clauses compare with an automaton (docs/ARCHITECTURE.md), for any
//! reading `r` and open containers `fs`.

ghost use Rattle.std.specs.Prelude.{◌≡◌, ℕ, pos, List, [], ◌∷◌, ◌<◌, ◌≤◌, ◌+◌, ◌-◌, ◌%◌, ◌^◌, ◌++◌, length, drop, chars, not, Bool, true, false, ◌==◌, ◌↔◌, IsTrue, IfOk, IfErr, OkIff, slice_index, if◌then◌else◌};
ghost use Rattle.std.specs.Char.{is_ascii_digit};
ghost use Rattle.std.specs.List.{All, fold, take_while};
ghost use Rattle.std.specs.Str.{IsCharBoundary};
ghost use Rattle.jzon_base.specs.Decimal.{signed};
ghost use Rattle.jzon_base.specs.Digits.{IsDigit, add_digit, digits_number, number_read};
ghost use Rattle.jzon_base.specs.DigitLimits.{IsFirstTooMany};
ghost use Rattle.jzon_base.specs.LostDigits.{HoldsOfNone, IsFirst, leaves_range, number_digits, mantissa_and_exponent, IsReadableNumber, IsFirstNumberFault, IsFirstLost};
ghost use Rattle.jzon.specs.declared.stop.Stop.TheVariants.{Inexact};
ghost use Rattle.jzon.specs.Private.Stops.{stop_offset};
ghost use Rattle.jzon_base.specs.declared.digits.NumberFault.{NumberFault};
ghost use Rattle.jzon_tree.specs.Value.{number};
ghost use Rattle.jzon.specs.Reading.{Reading as Limits};
ghost use Rattle.jzon.specs.Grammar.{is_exponent_letter};
ghost use Rattle.jzon.specs.Private.Classes.{after_letter};
ghost use Rattle.jzon_base.specs.Tokens.{zero_digit};
ghost use Rattle.jzon.specs.Private.Machine.{Frames, numeral, numeral_after_first, after_value, from, fault_here, Leads, Reports};
ghost use Rattle.jzon.specs.Private.Numerals.{after_first, AreKept, LeadsTo, MissesDigit, HasTooMany, LosesDigit, digit_offset, number_stop};

use crate::bytes_at::{byte_at, has_byte};
use crate::stop::{Result, Stop, fault_at};
use jzon_base::digits::{NumberFault, read_digits, read_scanned, scan};
use jzon_base::number::Number;

/// The number whose first digit is at `start`, after a minus if `negative`, and the offset after
/// it. Fails at the first digit that is too many or, if `exact`, is lost or clamps the exponent
/// (unless the mantissa is 0); and else where a digit is missing.
#[inline(always)]
pub(crate) fn read_number(
    exact: bool,
    source: &str,
    start: usize,
    negative: bool,
) -> Result<(Number, usize)>
    requires within { start < length source.now }
    requires digit { IsTrue (is_ascii_digit (slice_index source.now start)) }
    ensures end { IfOk result
        (λ r. (start < r.1) × (r.1 ≤ length source.now) × IsCharBoundary source.now r.1) }
    ensures outcome { (r : Limits) (fs : Frames) → r.exact ≡ exact →
        Leads r source.now (numeral_after_first fs negative (slice_index source.now start))
        (start + 1) result
        (λ v. after_value fs (number v)) }
{
    let spelling = spelling_at(source, start);
    let parts = read_scanned(
        spelling.whole,
        spelling.fraction,
        spelling.number,
        spelling.positive_exponent,
        spelling.exponent,
        spelling.written,
    );
    // `read_rare` returns no sign and no end, since a result of either of two calls is moved.
    let (mantissa, exponent) = match parts {
        Some(parts) => parts,
        None => read_rare(
            exact,
            start,
            spelling.whole,
            spelling.fraction,
            spelling.positive_exponent,
            spelling.exponent,
            spelling.end,
        )?,
    };
    if spelling.is_missing {
        return Err(fault_at(source, spelling.end));
    }
    let number = Number::from_parts_unchecked(!negative, mantissa, exponent);
    Ok((number, spelling.end))
}

/// The mantissa and exponent of a number of more than 19 digits, or 4 in the exponent. It is from
/// `start` to `end`, which only give an error its offset.
#[inline(always)]
fn read_rare(
    exact: bool,
    start: usize,
    whole: &[u8],
    fraction: &[u8],
    positive_exponent: bool,
    exponent: &[u8],
    end: usize,
) -> Result<(u64, i16)>
    requires whole { All IsDigit whole.now }
    requires fraction { All IsDigit fraction.now }
    requires exponent { All IsDigit exponent.now }
    requires within { start + length whole.now + length fraction.now < 2 ^ 63 }
    requires before { length exponent.now ≤ end }
    ensures number { OkIff result
        (IsReadableNumber exact (number_digits whole.now fraction.now positive_exponent exponent.now))
        (mantissa_and_exponent (number_digits whole.now fraction.now positive_exponent exponent.now)) }
    ensures stop { IfErr result (λ stop. (f : NumberFault)
        × IsFirstNumberFault exact (number_digits whole.now fraction.now positive_exponent exponent.now) f
        × (stop ≡ number_stop start (length whole.now) (end - length exponent.now) f)) }
{
    let parts = read_digits(whole, fraction, positive_exponent, exponent, exact);
    match parts {
        Ok(parts) => Ok(parts),
        Err(fault) => Err(stop_at(fault, start, whole.len(), end - exponent.len())),
    }
}

/// The stop for `fault`, which counts digits from the first, at `start`, without the point after
/// `whole` digits; `OutOfRange` from the exponent's first, at `exponent`.
#[cold]
#[inline(never)]
fn stop_at(fault: NumberFault, start: usize, whole: usize, exponent: usize) -> Stop
    requires { stop_offset (number_stop start whole exponent fault) < 2 ^ 64 }
    ensures { result ≡ number_stop start whole exponent fault }
{
    match fault {
        NumberFault::TooMany(i) => Stop::Limit(digit_offset(start, whole, i)),
        NumberFault::Lost(i) => Stop::Inexact(digit_offset(start, whole, i)),
        NumberFault::OutOfRange(i) => Stop::Inexact(exponent + i),
    }
}

/// The offset of the digit at this position: the first is at `start`, and after `whole` digits is a
/// point.
fn digit_offset(start: usize, whole: usize, position: usize) -> usize
    requires { digit_offset start whole position < 2 ^ 64 }
    ensures { result ≡ digit_offset start whole position }
{
    if position < whole {
        start + position
    } else {
        start + position + 1
    }
}

/// The parts of a number in a text; absent ones are empty.
#[derive(Clone, Copy)]
struct Spelling<'a> {
    whole: &'a [u8],
    fraction: &'a [u8],
    /// The number that `whole` and `fraction` spell as one text, modulo 2^64.
    number: u64,
    positive_exponent: bool,
    exponent: &'a [u8],
    /// The number that `exponent` spells, modulo 2^64.
    written: u64,
    /// The offset after the number.
    end: usize,
    /// Whether a digit is required at `end`, and there is none.
    is_missing: bool,
    ghost whole_digits: { All IsDigit whole.now },
    ghost fraction_digits: { All IsDigit fraction.now },
    ghost added_up: { number ≡ digits_number (whole.now ++ fraction.now) % 2 ^ 64 },
    ghost exponent_digits: { All IsDigit exponent.now },
    ghost written_up: { written ≡ digits_number exponent.now % 2 ^ 64 },
}

/// The parts of the number whose first digit is at `start`. `leaves` is for a digit that takes the
/// exponent out of range.
#[inline(always)]
fn spelling_at(source: &str, start: usize) -> Spelling<'_>
    requires within { start < length source.now }
    requires digit { IsTrue (is_ascii_digit (slice_index source.now start)) }
    ensures end { (start < result.end) × (result.end ≤ length source.now)
        × IsCharBoundary source.now result.end }
    ensures room { start + length result.whole.now + length result.fraction.now ≤ result.end }
    ensures exponent { length result.exponent.now ≤ result.end }
    ensures number { result.is_missing ≡ false → (r : Limits) (fs : Frames) (negative : Bool)
        → IsReadableNumber r.exact
        (number_digits result.whole.now result.fraction.now result.positive_exponent result.exponent.now)
        → after_first r fs negative source.now start ≡ from r source.now (after_value fs (number (number_read
        (not negative) result.whole.now result.fraction.now
        (signed result.positive_exponent (digits_number result.exponent.now))))) result.end }
    ensures missing { result.is_missing ≡ true
        → MissesDigit result.whole.now result.fraction.now source.now start result.end }
    ensures too_many { (i : ℕ) → IsFirstTooMany result.whole.now result.fraction.now i
        → HasTooMany result.whole.now result.fraction.now i source.now start }
    ensures loses { (i : ℕ) → IsFirstLost result.whole.now result.fraction.now i
        → LosesDigit result.whole.now result.fraction.now i source.now start }
    ensures leaves { (i : ℕ) → IsFirst (leaves_range result.whole.now result.fraction.now
        (signed result.positive_exponent)) result.exponent.now i → (r : Limits) (fs : Frames) (negative : Bool)
        → AreKept r result.whole.now result.fraction.now → r.exact ≡ true
        → Reports source.now (Inexact (result.end - length result.exponent.now + i))
        (after_first r fs negative source.now start) }
{
    let magnitude = magnitude_at(source, start);
    if magnitude.is_missing || !has_exponent_letter(source, magnitude.end) {
        return magnitude;
    }
    let exponent = exponent_after(source, magnitude.end + 1);
    Spelling {
        whole: magnitude.whole,
        fraction: magnitude.fraction,
        number: magnitude.number,
        positive_exponent: exponent.is_positive,
        exponent: exponent.digits,
        written: exponent.number,
        end: exponent.end,
        is_missing: exponent.digits.is_empty(),
    }
}

/// The number whose first digit is at `start`, up to its exponent, which is empty in the result.
#[inline(always)]
fn magnitude_at(source: &str, start: usize) -> Spelling<'_>
    requires within { start < length source.now }
    requires digit { IsTrue (is_ascii_digit (slice_index source.now start)) }
    ensures end { (start < result.end) × (result.end ≤ length source.now)
        × IsCharBoundary source.now result.end }
    ensures room { start + length result.whole.now + length result.fraction.now ≤ result.end }
    ensures exponent { (result.positive_exponent ≡ true) × (result.exponent.now ≡ []) }
    ensures letter { result.is_missing ≡ false → result.end < length source.now
        → IsTrue (is_exponent_letter (slice_index source.now result.end))
        → LeadsTo result.whole.now result.fraction.now source.now start (result.end + 1) (λ fs negative. numeral fs negative
        (after_letter result.whole.now result.fraction.now (slice_index source.now result.end))) }
    ensures number { result.is_missing ≡ false
        → (result.end < length source.now → is_exponent_letter (slice_index source.now result.end)
        ≡ false)
        → LeadsTo result.whole.now result.fraction.now source.now start result.end (λ fs negative. after_value fs (number (number_read
        (not negative) result.whole.now result.fraction.now (pos 0)))) }
    ensures missing { result.is_missing ≡ true
        → MissesDigit result.whole.now result.fraction.now source.now start result.end }
    ensures too_many { (i : ℕ) → IsFirstTooMany result.whole.now result.fraction.now i
        → HasTooMany result.whole.now result.fraction.now i source.now start }
    ensures loses { (i : ℕ) → IsFirstLost result.whole.now result.fraction.now i
        → LosesDigit result.whole.now result.fraction.now i source.now start }
{
    let (whole, before) = before_point(source, start);
    let end = start + whole.len();
    if !has_byte(source, end, b'.') {
        return Spelling {
            whole,
            fraction: &[],
            number: before,
            positive_exponent: true,
            exponent: &[],
            written: 0,
            end,
            is_missing: false,
        };
    }
    let (fraction, number) = digits_at(source, end + 1, before);
    Spelling {
        whole,
        fraction,
        number,
        positive_exponent: true,
        exponent: &[],
        written: 0,
        end: end + 1 + fraction.len(),
        is_missing: fraction.is_empty(),
    }
}

/// The digits before the point, a single `0` or all from `start` on, and their number modulo 2^64.
/// One or two before a point need no `scan`.
#[inline(always)]
fn before_point(source: &str, start: usize) -> (&[u8], u64)
    requires within { start < length source.now }
    requires digit { IsTrue (is_ascii_digit (slice_index source.now start)) }
    ensures digits { result.0.now
        ≡ (if slice_index source.now start == zero_digit then zero_digit ∷ []
        else take_while is_ascii_digit (drop start source.now)) }
    ensures number { result.1 ≡ digits_number result.0.now % 2 ^ 64 }
{
    let bytes = source.as_bytes();
    if has_byte(source, start + 1, b'.') || bytes[start] == b'0' {
        return (&bytes[start..start + 1], u64::from(bytes[start] - b'0'));
    }
    if has_byte(source, start + 2, b'.') && bytes[start + 1].is_ascii_digit() {
        let tens = u64::from(bytes[start] - b'0') * 10;
        return (
            &bytes[start..start + 2],
            tens + u64::from(bytes[start + 1] - b'0'),
        );
    }
    digits_at(source, start, 0)
}

/// The digits from `start` on, maybe none, and the number that they spell when appended to the
/// digits of `before`, both modulo 2^64.
#[inline]
fn digits_at(source: &str, start: usize, before: u64) -> (&[u8], u64)
    requires { start ≤ length source.now }
    ensures digits { result.0.now ≡ take_while is_ascii_digit (drop start source.now) }
    ensures number { (n : ℕ) → before ≡ n % 2 ^ 64 → result.1
        ≡ fold add_digit n result.0.now % 2 ^ 64 }
{
    let rest = &source.as_bytes()[start..];
    let (count, number) = scan(rest, before);
    (&rest[..count], number)
}

/// An exponent, maybe without digits, and its end.
#[derive(Clone, Copy)]
struct Exponent<'a> {
    is_positive: bool,
    digits: &'a [u8],
    /// The number that `digits` spell, modulo 2^64.
    number: u64,
    end: usize,
}

/// The exponent whose letter is before `start`.
#[inline(always)]
fn exponent_after(source: &str, start: usize) -> Exponent<'_>
    requires { IsCharBoundary source.now start }
    ensures end { (start ≤ result.end) × (result.end ≤ length source.now)
        × IsCharBoundary source.now result.end }
    ensures digits { All IsDigit result.digits.now }
    ensures written { result.number ≡ digits_number result.digits.now % 2 ^ 64 }
    ensures number { 0 < length result.digits.now →
        (r : Limits) (fs : Frames) (negative : Bool) (ws ds : List ℕ)
        (l : ℕ) → (r.exact ≡ true → HoldsOfNone (leaves_range ws ds (signed result.is_positive)) result.digits.now)
        → from r source.now (numeral fs negative (after_letter ws ds l)) start
        ≡ from r source.now (after_value fs (number (number_read (not negative) ws ds
        (signed result.is_positive (digits_number result.digits.now))))) result.end }
    ensures missing { length result.digits.now ≡ 0 →
        (r : Limits) (fs : Frames) (negative : Bool) (ws ds : List ℕ)
        (l : ℕ)
        → from r source.now (numeral fs negative (after_letter ws ds l)) start
        ≡ fault_here (chars (drop result.end source.now)) }
    ensures leaves { (i : ℕ) (r : Limits) (fs : Frames) (negative : Bool) (ws ds : List ℕ) (l : ℕ)
        → r.exact ≡ true → IsFirst (leaves_range ws ds (signed result.is_positive)) result.digits.now i
        → Reports source.now (Inexact (result.end - length result.digits.now + i))
        (from r source.now (numeral fs negative (after_letter ws ds l)) start) }
    ensures room { length result.digits.now ≤ result.end }
{
    let (is_positive, first) = match byte_at(source, start) {
        b'-' => (false, start + 1),
        b'+' => (true, start + 1),
        _ => (true, start),
    };
    let (digits, number) = exponent_digits(source, first);
    Exponent {
        is_positive,
        digits,
        number,
        end: first + digits.len(),
    }
}

/// The digits from `start` on, maybe none, and their number modulo 2^64. Not inlined, because few
/// numbers have an exponent.
#[cold]
#[inline(never)]
fn exponent_digits(source: &str, start: usize) -> (&[u8], u64)
    requires { start ≤ length source.now }
    ensures digits { result.0.now ≡ take_while is_ascii_digit (drop start source.now) }
    ensures number { result.1 ≡ digits_number result.0.now % 2 ^ 64 }
{
    digits_at(source, start, 0)
}

/// Whether an `e` or `E` is at `index`.
fn has_exponent_letter(source: &str, index: usize) -> bool
    ensures { IsTrue result ↔ ((index < length source.now)
        × IsTrue (is_exponent_letter (slice_index source.now index))) }
{
    has_byte(source, index, b'e') || has_byte(source, index, b'E')
}
