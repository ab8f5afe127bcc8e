//! Reads primitives: numbers, strings and literals (RFC 8259, section 3), into a `Target`. Clauses
//! compare with an automaton (docs/ARCHITECTURE.md).

ghost use Rattle.std.specs.Prelude.{◌≡◌, ◌≢◌, ◌⊎◌, ◌<◌, ◌+◌, length, IsTrue, IfOk, Err, MatchResult, codes, slice_index, None, true, false, IsAscii, ⊤};
ghost use Rattle.std.specs.Char.{is_ascii_digit};
ghost use Rattle.std.specs.Str.{IsCharBoundary};
ghost use Rattle.jzon_tree.specs.Value.{Value, null, boolean};
ghost use Rattle.jzon_tree.specs.View.{view};
ghost use Rattle.jzon.specs.Private.Classes.{letter_n, letter_t, letter_f};
ghost use Rattle.jzon.specs.Private.Machine.{numeral_after_first, before, Frames, after_value, past_letter, value_mark, from, Reports};
ghost use Rattle.jzon.specs.Private.Targets.{MayBegin, Puts};
ghost use Rattle.jzon.specs.Reading.{Reading as Limits};
ghost use Rattle.jzon_base.specs.Tokens.{begin_array, begin_object, quotation_mark};

use crate::bytes_at::{byte_at, has_byte, has_four};
use crate::numeral::read_number;
use crate::stop::{Result, Stop, fault_at};
use crate::string::{put_string_value, read_string};
use crate::target::Target;
use jzon_tree::value::JsonValue;
use std::alloc::Global;

/// Puts the primitive at `start`, whose first byte is `first` (0 at the end of the text), into the
/// target. Returns the offset after it; an error leaves the target as it was. If `exact`, a number
/// must keep its value. In `buffer`, unspecified afterwards, strings are unescaped.
#[inline(always)]
pub(crate) fn put_primitive<T: Target>(
    exact: bool,
    alloc: Global,
    source: &str,
    start: usize,
    first: u8,
    buffer: &mut String,
    target: &mut T,
) -> Result<usize>
    requires boundary { IsCharBoundary source.now start }
    requires first { first ≡ slice_index source.now start }
    requires no_array { first ≢ begin_array }
    requires no_object { first ≢ begin_object }
    requires room { T.has_room target.old }
    ensures end { IfOk result (λ end. (start < end) × IsCharBoundary source.now end) }
    ensures memory { result ≡ Err Stop.Memory → first ≡ quotation_mark }
    ensures outcome { Puts (T.takes target.old) target.old target.new result source.now start before
        (λ r fs. MayBegin r fs source.now start exact) }
{
    if first.is_ascii_digit() {
        return put_magnitude(exact, source, start, false, target);
    }
    match first {
        b'-' => {
            if !byte_at(source, start + 1).is_ascii_digit() {
                return Err(fault_at(source, start + 1));
            }
            put_magnitude(exact, source, start + 1, true, target)
        }
        b'"' => {
            let spelled = read_string(source, start + 1, buffer)?;
            let (content, wide) = spelled.text(source, start + 1, buffer);
            put_string_value(alloc, content, wide, target)?;
            Ok(spelled.end)
        }
        b'n' | b't' | b'f' => put_literal(source, start, first, target),
        _ => Err(fault_at(source, start)),
    }
}

/// Puts the number whose first digit is at `start`, after a minus if it is `negative`. Returns the
/// offset after it. If `exact`, it must keep its value.
#[inline(always)]
fn put_magnitude<T: Target>(
    exact: bool,
    source: &str,
    start: usize,
    negative: bool,
    target: &mut T,
) -> Result<usize>
    requires within { start < length source.now }
    requires digit { IsTrue (is_ascii_digit (slice_index source.now start)) }
    requires room { T.has_room target.old }
    ensures end { IfOk result (λ end. (start < end) × IsCharBoundary source.now end) }
    ensures memory { result ≢ Err Stop.Memory }
    ensures outcome { Puts (T.takes target.old) target.old target.new result source.now (start + 1)
        (λ fs. numeral_after_first fs negative (slice_index source.now start))
        (λ r fs. r.exact ≡ exact) }
{
    let (number, end) = read_number(exact, source, start, negative)?;
    target.put(JsonValue::Number(number));
    Ok(end)
}

/// Puts the literal whose first letter, `first`, is at `start`. Returns the offset after it. Its
/// last four letters are compared at once: processors can't predict a branch for each literal.
#[inline(always)]
fn put_literal<T: Target>(source: &str, start: usize, first: u8, target: &mut T) -> Result<usize>
    requires within { start < length source.now }
    requires first { first ≡ slice_index source.now start }
    requires word { (first ≡ letter_n) ⊎ (first ≡ letter_t) ⊎ (first ≡ letter_f) }
    requires room { T.has_room target.old }
    ensures end { IfOk result (λ end. (start < end) × IsCharBoundary source.now end) }
    ensures memory { result ≢ Err Stop.Memory }
    ensures outcome { Puts (T.takes target.old) target.old target.new result source.now start before
        (λ r fs. value_mark r fs ≡ None) }
{
    let (value, letters) = literal(first);
    let letters_at = start + usize::from(first == b'f');
    if has_four(source, letters_at, letters) {
        target.put(value);
        return Ok(letters_at + 4);
    }
    // This call fails: what follows is never reached, and only spares a proof of that.
    let end = read_letters(source, letters_at, &letters)?;
    target.put(value);
    Ok(end)
}

/// The value of the literal with this first letter (n, t or f), and its last four letters.
#[inline(always)]
fn literal(first: u8) -> (JsonValue, [u8; 4])
    ensures ascii { IsAscii result.1 }
    ensures null { first ≡ letter_n → (view result.0 ≡ null) × (result.1 ≡ codes "null") }
    ensures yes { first ≡ letter_t → (view result.0 ≡ boolean true) × (result.1 ≡ codes "true") }
    ensures no { first ≡ letter_f → (view result.0 ≡ boolean false) × (result.1 ≡ codes "alse") }
{
    match first {
        b'n' => (JsonValue::Null, *b"null"),
        b't' => (JsonValue::Boolean(true), *b"true"),
        _ => (JsonValue::Boolean(false), *b"alse"),
    }
}

/// The offset after these last letters of a literal, of which one is wrong or missing: compared one
/// by one, so that the error is there. `past_letter` is the automaton's state before them.
#[cold]
#[inline(never)]
fn read_letters(source: &str, start: usize, letters: &[u8]) -> Result<usize>
    requires boundary { IsCharBoundary source.now start }
    requires ascii { IsAscii letters.now }
    ensures end { IfOk result (λ end. (end ≡ start + length letters.now)
        × IsCharBoundary source.now end) }
    ensures outcome { (r : Limits) (fs : Frames) (v : Value) → MatchResult result
        (λ end. from r source.now (past_letter fs v letters.now) start
        ≡ from r source.now (after_value fs v) end)
        (λ e. Reports source.now e (from r source.now
        (past_letter fs v letters.now) start)) }
{
    let mut index = start;
    for letter in letters {
        if !has_byte(source, index, *letter) {
            return Err(fault_at(source, index));
        }
        index += 1;
    }
    Ok(index)
}
