//! Skips whitespace (RFC 8259, section 2; docs/RULES.md, "Texts"). No byte above the space (32) is
//! whitespace.

ghost use Rattle.std.specs.Prelude.{◌≡◌, IsTrue, ◌<◌, ◌≤◌, ◌+◌, drop, length, true, false, slice_index};
ghost use Rattle.std.specs.Int.{w64, trailing_zeros};
ghost use Rattle.std.specs.List.{prefix_len};
ghost use Rattle.std.specs.Str.{IsCharBoundary};
ghost use Rattle.jzon_tree.specs.Writing.{is_whitespace};
ghost use Rattle.jzon.specs.Private.Machine.{State, allows_whitespace, from};

use crate::bytes_at::has_byte;
use crate::reading::Reading;
use std::simd::prelude::*;

/// How many bytes one SIMD comparison tests.
const LANES: usize = 16;

/// The offset after the whitespace at `start`. Most often there is none, or one space, so these are
/// tested first. By `outcome` the automaton of the proofs (docs/ARCHITECTURE.md) may skip it too,
/// in each state that allows whitespace.
#[inline(always)]
pub(crate) fn skip_whitespace(source: &str, reading: Reading, start: usize) -> usize
    requires { IsCharBoundary source.now start }
    ensures boundary { IsCharBoundary source.now result }
    ensures outcome { (p : State) → allows_whitespace p ≡ true →
        from reading source.now p start ≡ from reading source.now p result }
    ensures within { start ≤ result }
    ensures stop { result < length source.now →
        is_whitespace reading.strict (slice_index source.now result) ≡ false }
{
    if is_above_space(source, start) {
        return start;
    }
    if has_byte(source, start, b' ') && is_above_space(source, start + 1) {
        return start + 1;
    }
    start + whitespace_length(&source.as_bytes()[start..], reading.strict())
}

#[inline(always)]
fn is_above_space(source: &str, index: usize) -> bool
    ensures within { IsTrue result → index < length source.now }
    ensures above { IsTrue result → 32 < slice_index source.now index }
    ensures all { index < length source.now → 32 < slice_index source.now index → IsTrue result }
{
    let bytes = source.as_bytes();
    index < bytes.len() && bytes[index] > b' '
}

/// How many bytes at the start are whitespace. Most is a newline and indentation, so the first
/// `LANES` bytes are tested for these alone; `rest_length` counts any.
#[inline(never)]
fn whitespace_length(bytes: &[u8], strict: bool) -> usize
    ensures { result ≡ prefix_len (is_whitespace strict) bytes.now }
{
    if bytes.len() < LANES {
        return whitespace_by_bytes(bytes, strict);
    }
    let others = unusual_in_lanes(bytes);
    if others == 0 {
        return LANES + rest_length(&bytes[LANES..], strict);
    }
    let end = others.trailing_zeros() as usize;
    if bytes[end] > b' ' {
        return end;
    }
    rest_length(bytes, strict)
}

/// Which of the first `LANES` bytes are neither newline nor space: a bit for each, the first byte's
/// lowest.
#[inline(always)]
fn unusual_in_lanes(bytes: &[u8]) -> u64
    requires { LANES ≤ length bytes.now }
    ensures none { result ≡ 0 → LANES ≤ prefix_len (is_whitespace true) bytes.now }
    ensures within { ¬ (result ≡ 0) → trailing_zeros w64 result < LANES }
    ensures some { ¬ (result ≡ 0) → trailing_zeros w64 result
        ≤ prefix_len (is_whitespace true) bytes.now }
{
    let lanes = Simd::<u8, 16>::from_slice(bytes);
    let usual = lanes.simd_eq(Simd::splat(b' ')) | lanes.simd_eq(Simd::splat(b'\n'));
    0xFFFF - usual.to_bitmask()
}

/// How many bytes at the start are whitespace, `LANES` at once.
#[inline(never)]
fn rest_length(bytes: &[u8], strict: bool) -> usize
    ensures { result ≡ prefix_len (is_whitespace strict) bytes.now }
{
    let mut len = 0;
    while bytes.len() - len >= LANES {
        let others = others_in_lanes(bytes, len);
        if others != 0 {
            let end = len + others.trailing_zeros() as usize;
            if bytes[end] > b' ' {
                return end;
            }
            // Maybe a vertical tab or a form feed.
            return end + whitespace_by_bytes(&bytes[end..], strict);
        }
        len += LANES;
    }
    len + whitespace_by_bytes(&bytes[len..], strict)
}

/// Which of the `LANES` bytes at `start` aren't whitespace of RFC 8259 (`is_whitespace true`): a
/// bit for each, the first byte's lowest.
#[inline(always)]
fn others_in_lanes(bytes: &[u8], start: usize) -> u64
    requires { start + LANES ≤ length bytes.now }
    ensures none { result ≡ 0 → LANES ≤ prefix_len (is_whitespace true) (drop start bytes.now) }
    ensures within { ¬ (result ≡ 0) → trailing_zeros w64 result < LANES }
    ensures some { ¬ (result ≡ 0) → trailing_zeros w64 result
        ≡ prefix_len (is_whitespace true) (drop start bytes.now) }
{
    let lanes = Simd::<u8, 16>::from_slice(&bytes[start..]);
    let blanks = lanes.simd_eq(Simd::splat(b' ')) | lanes.simd_eq(Simd::splat(b'\t'));
    let line_ends = lanes.simd_eq(Simd::splat(b'\n')) | lanes.simd_eq(Simd::splat(b'\r'));
    0xFFFF - (blanks | line_ends).to_bitmask()
}

/// How many bytes at the start are whitespace, byte by byte.
#[inline(always)]
fn whitespace_by_bytes(bytes: &[u8], strict: bool) -> usize
    ensures { result ≡ prefix_len (is_whitespace strict) bytes.now }
{
    bytes
        .iter()
        .take_while(|byte| is_whitespace(**byte, strict))
        .count()
}

/// Whether it is a tab, newline, carriage return or space; unless `strict`, also a vertical tab or
/// form feed.
fn is_whitespace(byte: u8, strict: bool) -> bool
    ensures { result ≡ is_whitespace strict byte }
{
    matches!(byte, 9 | 10 | 13 | 32) || (!strict && matches!(byte, 11 | 12))
}
