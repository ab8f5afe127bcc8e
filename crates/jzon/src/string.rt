//! Reads strings (RFC 8259, section 7; docs/RULES.md, "Strings"). A string without escapes isn't
//! copied; one with escapes is unescaped into a buffer. The automaton of the clauses
//! (docs/ARCHITECTURE.md) reads one in the `Role` of a key or a value, and is `between` its
//! characters.

ghost use Rattle.std.specs.Prelude.{◌≡◌, ◌<◌, ◌≤◌, ◌+◌, ◌-◌, ◌++◌, ◌&&◌, ◌⊎◌, ◌↔◌, Contains, ℕ, List, [], length, take, IsTrue, IfOk, IsOk, IsOkUnless, SomeIff, MatchResult, OnOk, OnErr, slice_index, slice_range, string_bytes, if◌then◌else◌, false};
ghost use Rattle.std.specs.Str.{IsCharBoundary};
ghost use Rattle.jzon_base.specs.Private.PlainBytes.{is_plain};
ghost use Rattle.jzon_base.specs.Tokens.{escape};
ghost use Rattle.jzon_tree.specs.Value.{text, kind_of};
ghost use Rattle.jzon_tree.specs.View.{view};
ghost use Rattle.jzon.specs.Reading.{Reading};
ghost use Rattle.jzon.specs.Grammar.{is_high, is_low, code_unit};
ghost use Rattle.jzon.specs.Meaning.{pair_char};
ghost use Rattle.jzon.specs.Private.Quote.{EndsAtQuote, ReadsCharacter, ReadsUnit, ReadsSecondUnit};
ghost use Rattle.jzon.specs.declared.stop.Stop.TheVariants.{Memory};
ghost use Rattle.jzon.specs.Private.Machine.{Role, string, between, after_backslash, code, second, from, from_closed, Reports};

use crate::bytes_at::{byte_at, has_byte};
use crate::stop::{Result, Stop, fault_at};
use crate::target::Target;
use jzon_base::short::{MAX_LEN, Short};
use jzon_base::util::escapes::{hex_value, meant_by};
use jzon_base::util::plain::plain_len;
use jzon_tree::value::JsonValue;
use std::alloc::Global;

/// A string that was read.
#[derive(Clone, Copy)]
pub(crate) struct Spelled {
    /// The offset after the closing quote.
    pub(crate) end: usize,
    /// Whether the contents are in the buffer, unescaped; else they are in the source, up to the
    /// closing quote.
    pub(crate) is_escaped: bool,
}

impl Spelled {
    /// The contents of the string whose opening quote is before `start`, and what begins with them
    /// (the rest of the source, or the buffer), of which a fixed number of bytes is copied faster.
    pub(crate) fn text<'a>(
        self,
        source: &'a str,
        start: usize,
        buffer: &'a String,
    ) -> (&'a str, &'a str)
        requires begin { IsCharBoundary source.now start }
        requires end { EndsAtQuote source.now start self.end }
        ensures text { result.0.now
            ≡ (if self.is_escaped then string_bytes buffer.now else slice_range source.now start
            (self.end - 1)) }
        ensures wide { take (length result.0.now) result.1.now ≡ result.0.now }
    {
        if self.is_escaped {
            (buffer.as_str(), buffer.as_str())
        } else {
            (&source[start..self.end - 1], &source[start..])
        }
    }
}

/// Puts the string `content` into the target: up to `MAX_LEN` bytes (30) inline, which never fails;
/// more in an allocation. Of `wide`, which begins with it, 30 bytes are copied faster.
#[inline(always)]
pub(crate) fn put_string_value<T: Target>(
    alloc: Global,
    content: &str,
    wide: &str,
    target: &mut T,
) -> Result<()>
    requires wide { take (length content.now) wide.now ≡ content.now }
    requires room { T.has_room target.old }
    ensures value { IfOk result (λ _. (v : JsonValue) × T.takes target.old v target.new
        × (view v ≡ text (kind_of content.now) content.now)) }
    ensures kept { OnErr result (target.new ≡ target.old) }
    ensures memory { IsOkUnless result Memory }
    ensures in_place { length content.now ≤ MAX_LEN → IsOk result }
{
    if content.len() <= MAX_LEN {
        // A `put` in each branch: one after both would copy the value once more.
        if wide.is_char_boundary(MAX_LEN) {
            target.put(JsonValue::Short(Short::from_wide(content, wide)));
        } else {
            target.put(JsonValue::Short(Short::from_slice(content)));
        }
    } else {
        target.put(JsonValue::String(String::from_str(alloc, content)?));
    }
    Ok(())
}

/// Reads the string whose opening quote is before `start`. Without escapes it leaves the buffer as
/// it was; after an error the buffer is unspecified.
#[inline(always)]
pub(crate) fn read_string(source: &str, start: usize, buffer: &mut String) -> Result<Spelled>
    requires { IsCharBoundary source.now start }
    ensures quote { IfOk result (λ s. EndsAtQuote source.now start s.end) }
    ensures escaped { IfOk result
        (λ s. IsTrue s.is_escaped ↔ Contains (slice_range source.now start (s.end - 1)) escape) }
    ensures untouched { IfOk result
        (λ s. s.is_escaped ≡ false → string_bytes buffer.new ≡ string_bytes buffer.old) }
    ensures outcome { (r : Reading) (role : Role) → MatchResult result
        (λ s. from r source.now (string role [] between) start
        ≡ from_closed r source.now role
        (if s.is_escaped then string_bytes buffer.new else slice_range source.now start
        (s.end - 1)) s.end)
        (λ e. (e ≡ Memory)
        ⊎ Reports source.now e (from r source.now (string role [] between) start)) }
{
    let stop = plain_end(source, start);
    if !has_byte(source, stop, b'\\') {
        let end = past_quote(source, stop)?;
        return Ok(Spelled {
            end,
            is_escaped: false,
        });
    }
    buffer.clear();
    buffer.push_str(&source[start..stop])?;
    let end = read_escapes(source, stop, buffer)?;
    Ok(Spelled {
        end,
        is_escaped: true,
    })
}

/// The offset after the unescaped characters from `start` on: that of a quote, a backslash, a
/// control character or the text's end.
fn plain_end(source: &str, start: usize) -> usize
    requires { IsCharBoundary source.now start }
    ensures within { start ≤ result }
    ensures boundary { IsCharBoundary source.now result }
    ensures stop { result < length source.now → is_plain (slice_index source.now result) ≡ false }
    ensures no_escape { ¬ (Contains (slice_range source.now start result) escape) }
    ensures outcome { (r : Reading) (role : Role) (bs : List ℕ) →
        from r source.now (string role bs between) start
        ≡ from r source.now (string role (bs ++ slice_range source.now start result) between)
        result }
{
    start + plain_len(&source.as_bytes()[start..])
}

/// The offset after the closing quote at `index`. Fails if a control character or the text's end is
/// there instead.
fn past_quote(source: &str, index: usize) -> Result<usize>
    requires boundary { IsCharBoundary source.now index }
    requires stop { index < length source.now → is_plain (slice_index source.now index) ≡ false }
    requires no_escape { index < length source.now → slice_index source.now index ≡ escape → ⊥ }
    ensures quote { IfOk result (λ end. (end ≡ index + 1) × EndsAtQuote source.now index end) }
    ensures outcome { (r : Reading) (role : Role) (bs : List ℕ) → MatchResult result
        (λ end. from r source.now (string role bs between) index
        ≡ from_closed r source.now role bs end)
        (λ e. Reports source.now e (from r source.now (string role bs between) index)) }
{
    if has_byte(source, index, b'"') {
        Ok(index + 1)
    } else {
        Err(fault_at(source, index))
    }
}

/// Adds the rest of the string, from the backslash at `start` on, to the buffer, unescaped; returns
/// the offset after the closing quote.
#[inline(never)]
fn read_escapes(source: &str, start: usize, buffer: &mut String) -> Result<usize>
    requires boundary { IsCharBoundary source.now start }
    requires stop { start < length source.now → is_plain (slice_index source.now start) ≡ false }
    ensures quote { IfOk result (λ end. EndsAtQuote source.now start end) }
    ensures outcome { (r : Reading) (role : Role) → MatchResult result
        (λ end. from r source.now (string role (string_bytes buffer.old) between) start
        ≡ from_closed r source.now role (string_bytes buffer.new) end)
        (λ e. (e ≡ Memory) ⊎ Reports source.now e
        (from r source.now (string role (string_bytes buffer.old) between) start)) }
{
    let mut index = start;
    while has_byte(source, index, b'\\') {
        let (ch, end) = read_escape(source, index + 1)?;
        buffer.push(ch)?;
        index = end;
        if !has_byte(source, end, b'\\') {
            index = plain_end(source, end);
            buffer.push_str(&source[end..index])?;
        }
    }
    past_quote(source, index)
}

/// The character of the escape whose backslash is before `start`, and the offset after it. To a
/// `\u` escape of a surrogate a second escape belongs.
fn read_escape(source: &str, start: usize) -> Result<(char, usize)>
    requires { IsCharBoundary source.now start }
    ensures end { IfOk result (λ r. (start < r.1) × IsCharBoundary source.now r.1) }
    ensures outcome { ReadsCharacter source.now start (λ role bs. string role bs after_backslash) result }
{
    if has_byte(source, start, b'u') {
        let digits = start + 1;
        let unit = read_hex(source, digits)?;
        // Only a surrogate is no character.
        return match char::from_u32(unit) {
            Some(ch) => Ok((ch, digits + 4)),
            None => read_second(source, digits + 4, unit),
        };
    }
    match meant_by(byte_at(source, start)) {
        Some(ch) => Ok((ch, start + 1)),
        None => Err(fault_at(source, start)),
    }
}

/// The character of the surrogate `first` and of the one whose escape must follow at `start`, and
/// the offset after both. Fails with `Stop::Surrogates`, at the last digit, if they are no pair.
fn read_second(source: &str, start: usize, first: u32) -> Result<(char, usize)>
    requires { IsCharBoundary source.now start }
    ensures end { IfOk result (λ r. (start < r.1) × IsCharBoundary source.now r.1) }
    ensures outcome { ReadsCharacter source.now start (λ role bs. string role bs (second first)) result }
{
    if !has_byte(source, start, b'\\') {
        return Err(fault_at(source, start));
    }
    if !has_byte(source, start + 1, b'u') {
        return Err(fault_at(source, start + 1));
    }
    let unit = read_hex(source, start + 2)?;
    match paired_char(first, unit) {
        Some(ch) => Ok((ch, start + 6)),
        None => Err(Stop::Surrogates(start + 5)),
    }
}

/// The character of a surrogate pair; `None` if the two aren't a high and a low surrogate.
fn paired_char(high: u32, low: u32) -> Option<char>
    ensures { SomeIff result (IsTrue (is_high high && is_low low)) (pair_char high low) }
{
    if matches!(high, 0xD800..0xDC00) && matches!(low, 0xDC00..0xE000) {
        char::from_u32(0x10000 + (high - 0xD800) * 0x400 + (low - 0xDC00))
    } else {
        None
    }
}

/// The code unit that the four hexadecimal digits at `start`, of either case, spell. The clauses
/// `first` and `second` are for the escapes of a character, `last` for the error of a wrong pair.
fn read_hex(source: &str, start: usize) -> Result<u32>
    requires { IsCharBoundary source.now start }
    ensures value { IfOk result (λ u. u ≡ code_unit (slice_range source.now start (start + 4))) }
    ensures small { IfOk result (λ u. u < 0x10000) }
    ensures boundary { OnOk result (IsCharBoundary source.now (start + 4)) }
    ensures last { OnOk result (IsCharBoundary source.now (start + 3)) }
    ensures first { ReadsUnit source.now start result }
    ensures second { ReadsSecondUnit source.now start result }
{
    if let [a, b, c, d, ..] = &source.as_bytes()[start..] {
        let digits = (hex_value(*a), hex_value(*b), hex_value(*c), hex_value(*d));
        if let (Some(a), Some(b), Some(c), Some(d)) = digits {
            return Ok(((a * 16 + b) * 16 + c) * 16 + d);
        }
    }
    read_hex_by_digits(source, start)
}

/// The code unit of four hexadecimal digits, of which one is wrong or missing: read one by one, so
/// that the error is at that byte or the end.
#[cold]
#[inline(never)]
fn read_hex_by_digits(source: &str, start: usize) -> Result<u32>
    requires { IsCharBoundary source.now start }
    ensures value { IfOk result (λ u. u ≡ code_unit (slice_range source.now start (start + 4))) }
    ensures small { IfOk result (λ u. u < 0x10000) }
    ensures boundary { OnOk result (IsCharBoundary source.now (start + 4)) }
    ensures last { OnOk result (IsCharBoundary source.now (start + 3)) }
    ensures first { ReadsUnit source.now start result }
    ensures second { ReadsSecondUnit source.now start result }
{
    let mut unit = 0;
    for index in start..start + 4 {
        match hex_value(byte_at(source, index)) {
            Some(digit) => unit = unit * 16 + digit,
            None => return Err(fault_at(source, index)),
        }
    }
    Ok(unit)
}
