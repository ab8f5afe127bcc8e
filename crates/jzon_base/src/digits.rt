//! The digits of a number in a text, and the number `mantissa * 10 ^ exponent` that they mean (RFC
//! 8259, section 6; docs/RULES.md, "What digits mean" and "Digit limits").
//!
//! The digits before the point (`whole`) and after it (`fraction`) are one list. Its longest prefix
//! that spells a number below 2^64, the mantissa, is *kept*; the digits after it are *dropped*. The
//! exponent is the *written* one (after `e`, else 0), plus the dropped digits before the point,
//! minus the kept ones after it, *clamped* to an `i16`. An exact reading, a setting of the parser,
//! fails at the first dropped digit that isn't 0, and where the exponent is clamped although the
//! mantissa isn't 0.

ghost use Rattle.std.specs.Prelude.{◌≡◌, ◌≢◌, ℕ, pos, ◌+◌, ◌%◌, ◌<◌, ◌≤◌, ◌^◌, ◌-ℤ◌, ◌+ℤ◌, ◌++◌, Bool, List, length, take, min, nat_lt, IfErr, IfSome, None, OkIff, slice_index, true};
ghost use Rattle.std.specs.Char.{is_ascii_digit};
ghost use Rattle.std.specs.List.{fold, prefix_len, All};
ghost use Rattle.jzon_base.specs.Decimal.{signed};
ghost use Rattle.jzon_base.specs.Digits.{IsDigit, add_digit, digits_number, kept, dropped, kept_fraction, clamp};
ghost use Rattle.jzon_base.specs.DigitLimits.{IsFirstTooMany, KeepsLongestPrefix};
ghost use Rattle.jzon_base.specs.LostDigits.{HoldsOfNone, IsFirst, loses_last, is_out_of_range, number_digits, mantissa_and_exponent, IsReadableNumber, IsFirstNumberFault};
ghost use Rattle.jzon_base.specs.Tokens.{zero_digit};

mod eight_at_once;

use eight_at_once::{EIGHT, leading_digits, ten_to};

/// So many digits are always kept: any 19 fit in a `u64`.
const ALWAYS_KEPT: usize = 19;

/// With so few digits after `e`, the exponent of `ALWAYS_KEPT` digits isn't clamped.
const NEVER_CLAMPED: usize = 4;

/// The most digits before the point that may be dropped: `i16::MAX`, to fit in the exponent.
const MAX_DROPPED: usize = 32767;

/// The most digits after the point that may be kept: minus `i16::MIN`, to fit in the exponent.
const MAX_KEPT_FRACTION: usize = 32768;

/// A larger written exponent is read as this: with any `i16` added, it is clamped too.
const MAX_WRITTEN: u64 = 65536;

/// Why digits can't be read (`Lost` and `OutOfRange`: read exactly), with the position of the first
/// such digit, among those before and after the point; of `OutOfRange`, in the exponent.
#[derive(Clone, Copy, Debug, PartialEq, Eq)]
pub enum NumberFault {
    /// The digit is the first beyond `MAX_DROPPED` dropped ones or `MAX_KEPT_FRACTION` kept ones.
    TooMany(usize),
    /// The digit is dropped and isn't 0.
    Lost(usize),
    /// The exponent up to this digit is clamped, and the mantissa isn't 0.
    OutOfRange(usize),
}

/// The mantissa and the exponent of a number with at most `ALWAYS_KEPT` digits, and `NEVER_CLAMPED`
/// in the exponent; `None` for others, which need `read_digits`. `number` is what `scan` returned
/// for `whole` and `fraction` as one text, and `written` for `exponent`. Each slice may be empty.
pub fn read_scanned(
    whole: &[u8],
    fraction: &[u8],
    number: u64,
    positive_exponent: bool,
    exponent: &[u8],
    written: u64,
) -> Option<(u64, i16)>
    requires whole { All IsDigit whole.now }
    requires fraction { All IsDigit fraction.now }
    requires number { number ≡ digits_number (whole.now ++ fraction.now) % 2 ^ 64 }
    requires exponent { All IsDigit exponent.now }
    requires written { written ≡ digits_number exponent.now % 2 ^ 64 }
    ensures readable { IfSome result
        (λ p. IsReadableNumber true (number_digits whole.now fraction.now positive_exponent exponent.now)) }
    ensures number { IfSome result (λ p. p
        ≡ mantissa_and_exponent (number_digits whole.now fraction.now positive_exponent exponent.now)) }
{
    if whole.len() + fraction.len() > ALWAYS_KEPT {
        return None;
    }
    // Nothing is dropped, and `number` is exact, although computed modulo 2^64.
    let power = -(fraction.len() as i16);
    if exponent.is_empty() {
        return Some((number, power));
    }
    if exponent.len() > NEVER_CLAMPED {
        return None;
    }
    let written = written as i16;
    let sum = if positive_exponent {
        power + written
    } else {
        power - written
    };
    Some((number, sum))
}

/// The mantissa and the exponent of any digits. Fails at the first that is too many or, if the
/// number must be `exact`, lost; if there is none, and it must be exact, at the one by which the
/// exponent is clamped. Cold: most numbers need only `read_scanned`.
#[cold]
#[inline(never)]
pub fn read_digits(
    whole: &[u8],
    fraction: &[u8],
    positive_exponent: bool,
    exponent: &[u8],
    exact: bool,
) -> Result<(u64, i16), NumberFault>
    requires whole { All IsDigit whole.now }
    requires fraction { All IsDigit fraction.now }
    requires exponent { All IsDigit exponent.now }
    ensures number { OkIff result
        (IsReadableNumber exact (number_digits whole.now fraction.now positive_exponent exponent.now))
        (mantissa_and_exponent (number_digits whole.now fraction.now positive_exponent exponent.now)) }
    ensures fault { IfErr result
        (IsFirstNumberFault exact (number_digits whole.now fraction.now positive_exponent exponent.now)) }
{
    let (number, dropped, kept_fraction) = kept_prefix(whole, fraction);
    let too_many = first_too_many(whole.len(), dropped, kept_fraction);
    if exact {
        if let Some(lost) = first_lost(whole, fraction, dropped, kept_fraction) {
            if too_many.is_none_or(|i| lost < i) {
                return Err(NumberFault::Lost(lost));
            }
        }
    }
    if let Some(i) = too_many {
        return Err(NumberFault::TooMany(i));
    }
    let clamped = clamped_exponent(dropped, kept_fraction, positive_exponent, exponent);
    if exact && number != 0 {
        let most = most_written(dropped, kept_fraction, positive_exponent);
        if let Some(i) = first_above(most, exponent) {
            return Err(NumberFault::OutOfRange(i));
        }
    }
    Ok((number, clamped))
}

/// How many digits `bytes` begins with, and the number that they spell when appended to those of
/// `before`, modulo 2^64 (in the contract `n` is the number before, unreduced).
#[inline]
pub fn scan(bytes: &[u8], before: u64) -> (usize, u64)
    ensures count { result.0 ≡ prefix_len is_ascii_digit bytes.now }
    ensures number { (n : ℕ) → before ≡ n % 2 ^ 64
        → result.1 ≡ fold add_digit n (take result.0 bytes.now) % 2 ^ 64 }
{
    let mut len = 0;
    let mut number = before;
    while bytes.len() - len >= EIGHT {
        let (count, next) = leading_digits(bytes, len);
        number = number.wrapping_mul(ten_to(count)).wrapping_add(next);
        len += count;
        if count < EIGHT {
            return (len, number);
        }
    }
    let (count, number) = scan_by_bytes(&bytes[len..], number);
    (len + count, number)
}

/// How many digits the last bytes of `scan` begin with, and the number that they spell, appended to
/// those of `before`, modulo 2^64.
fn scan_by_bytes(bytes: &[u8], before: u64) -> (usize, u64)
    ensures count { result.0 ≡ prefix_len is_ascii_digit bytes.now }
    ensures number { (n : ℕ) → before ≡ n % 2 ^ 64
        → result.1 ≡ fold add_digit n (take result.0 bytes.now) % 2 ^ 64 }
{
    let mut number = before;
    for (i, byte) in bytes.iter().enumerate() {
        if !byte.is_ascii_digit() {
            return (i, number);
        }
        number = number
            .wrapping_mul(10)
            .wrapping_add(u64::from(*byte - b'0'));
    }
    (bytes.len(), number)
}

/// The number that the kept digits spell, how many before the point are dropped, and how many after
/// it are kept.
fn kept_prefix(whole: &[u8], fraction: &[u8]) -> (u64, usize, usize)
    requires whole { All IsDigit whole.now }
    requires fraction { All IsDigit fraction.now }
    ensures number { result.0 ≡ digits_number (kept (whole.now ++ fraction.now)) }
    ensures dropped { result.1 ≡ dropped whole.now fraction.now }
    ensures kept { result.2 ≡ kept_fraction whole.now fraction.now }
{
    let sure = whole.len().min(ALWAYS_KEPT);
    let (number, count) = longest_prefix(0, whole, sure);
    if count < whole.len() {
        return (number, whole.len() - count, 0);
    }
    let sure = fraction.len().min(ALWAYS_KEPT - sure);
    let (number, kept_fraction) = longest_prefix(number, fraction, sure);
    (number, 0, kept_fraction)
}

/// Appends digits to `before` as long as the number stays below 2^64, as it does for `sure` of
/// them. Returns it, and how many were appended. Cold, because few numbers need it.
#[cold]
#[inline(never)]
fn longest_prefix(before: u64, digits: &[u8], sure: usize) -> (u64, usize)
    requires digits { All IsDigit digits.now }
    requires within { sure ≤ length digits.now }
    requires sure { fold add_digit before (take sure digits.now) < 2 ^ 64 }
    ensures number { result.0 ≡ fold add_digit before (take result.1 digits.now) }
    ensures fits { result.0 < 2 ^ 64 }
    ensures within { result.1 ≤ length digits.now }
    ensures longest { result.1 < length digits.now
        → 2 ^ 64 ≤ fold add_digit before (take (result.1 + 1) digits.now) }
{
    let (_, mut number) = scan(&digits[..sure], before);
    for i in sure..digits.len() {
        let more = number
            .checked_mul(10)
            .and_then(|n| n.checked_add(u64::from(digits[i] - b'0')));
        match more {
            Some(n) => number = n,
            None => return (number, i),
        }
    }
    (number, digits.len())
}

/// The position, among all digits, of the first beyond `MAX_DROPPED` or `MAX_KEPT_FRACTION`, or
/// `None`: of `whole` digits before the point `gone` are dropped, and `held` after it are kept.
fn first_too_many(whole: usize, gone: usize, held: usize) -> Option<usize>
    requires whole { whole < 2 ^ 63 }
    requires gone { gone ≤ whole }
    ensures some { IfSome result (λ i. (ws fs : List ℕ) → length ws ≡ whole → dropped ws fs ≡ gone
        → kept_fraction ws fs ≡ held → IsFirstTooMany ws fs i) }
    ensures none { result ≡ None → (gone ≤ MAX_DROPPED) × (held ≤ MAX_KEPT_FRACTION) }
{
    if gone > MAX_DROPPED {
        Some(whole - gone + MAX_DROPPED)
    } else if held > MAX_KEPT_FRACTION {
        Some(whole + MAX_KEPT_FRACTION)
    } else {
        None
    }
}

/// The exponent of the number: `written` has the digits of the written one, `positive` its sign.
fn clamped_exponent(dropped: usize, kept_fraction: usize, positive: bool, written: &[u8]) -> i16
    requires digits { All IsDigit written.now }
    requires dropped { dropped ≤ MAX_DROPPED }
    requires kept { kept_fraction ≤ MAX_KEPT_FRACTION }
    ensures { result ≡ clamp ((pos dropped -ℤ pos kept_fraction) +ℤ signed positive
        (digits_number written.now)) }
{
    let power = dropped as i32 - kept_fraction as i32;
    // By the limits on both counts, `power` fits in an `i16`.
    if written.is_empty() {
        return power as i16;
    }
    let written = capped_number(written) as i32;
    let sum = if positive {
        power + written
    } else {
        power - written
    };
    sum.clamp(i32::from(i16::MIN), i32::from(i16::MAX)) as i16
}

/// The greatest magnitude of a written exponent of this sign by which the exponent isn't clamped.
fn most_written(dropped: usize, kept_fraction: usize, positive: bool) -> u32
    requires dropped { dropped ≤ MAX_DROPPED }
    requires kept { kept_fraction ≤ MAX_KEPT_FRACTION }
    ensures small { result ≤ 65535 }
    ensures most { (m n : ℕ) → m ≢ 0 → is_out_of_range m
        ((pos dropped -ℤ pos kept_fraction) +ℤ signed positive n) ≡ nat_lt result n }
{
    // `i16::MAX`, and the magnitude of `i16::MIN`.
    if positive {
        (32767 - dropped + kept_fraction) as u32
    } else {
        (32768 - kept_fraction + dropped) as u32
    }
}

/// The position of the digit with which the digits spell more than `limit`, or `None`. Cold,
/// because only exact readings ask for it.
#[cold]
#[inline(never)]
fn first_above(limit: u32, digits: &[u8]) -> Option<usize>
    requires limit { limit ≤ 65535 }
    requires digits { All IsDigit digits.now }
    ensures some { IfSome result (IsFirst (λ ds. nat_lt limit (digits_number ds)) digits.now) }
    ensures none { result ≡ None → HoldsOfNone (λ ds. nat_lt limit (digits_number ds)) digits.now }
{
    let mut number = 0;
    for (i, digit) in digits.iter().enumerate() {
        number = number * 10 + u32::from(*digit - b'0');
        if number > limit {
            return Some(i);
        }
    }
    None
}

/// The position, among all digits, of the first that is dropped and isn't 0, or `None`: `gone`
/// before the point are dropped, and `held` after it are kept. Cold, because only exact readings ask
/// for it.
#[cold]
#[inline(never)]
fn first_lost(whole: &[u8], fraction: &[u8], gone: usize, held: usize) -> Option<usize>
    requires dropped { gone ≡ dropped whole.now fraction.now }
    requires kept { held ≡ kept_fraction whole.now fraction.now }
    ensures some { IfSome result (IsFirst loses_last (whole.now ++ fraction.now)) }
    ensures none { result ≡ None → HoldsOfNone loses_last (whole.now ++ fraction.now) }
{
    match first_nonzero(whole, whole.len() - gone) {
        Some(i) => Some(i),
        None => match first_nonzero(fraction, held) {
            Some(i) => Some(whole.len() + i),
            None => None,
        },
    }
}

/// The position of the first digit at `start` or after it that isn't 0, or `None`.
fn first_nonzero(digits: &[u8], start: usize) -> Option<usize>
    ensures some { IfSome result (λ i. (start ≤ i) × (i < length digits.now)
        × (slice_index digits.now i ≢ zero_digit)
        × ((j : ℕ) → start ≤ j → j < i → slice_index digits.now j ≡ zero_digit)) }
    ensures none { result ≡ None
        → (j : ℕ) → start ≤ j → j < length digits.now → slice_index digits.now j ≡ zero_digit }
{
    for i in start..digits.len() {
        if digits[i] != b'0' {
            return Some(i);
        }
    }
    None
}

/// The written exponent that the digits spell, at most `MAX_WRITTEN`. Cold, because most numbers
/// have none.
#[cold]
#[inline(never)]
fn capped_number(digits: &[u8]) -> u64
    requires { All IsDigit digits.now }
    ensures { result ≡ min (digits_number digits.now) MAX_WRITTEN }
{
    let mut number = 0;
    for digit in digits {
        number = (number * 10 + u64::from(*digit - b'0')).min(MAX_WRITTEN);
    }
    number
}

/// Proves that the kept digits, as defined, are the longest prefix that spells a number below 2^64.
/// Nothing calls it: a law is proved only in a contract.
pub fn keeps_longest_prefix()
    ensures { KeepsLongestPrefix }
{}
