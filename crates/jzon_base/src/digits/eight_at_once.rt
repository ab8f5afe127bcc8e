//! Reads up to eight digits as the bytes of a 64-bit word.

ghost use Rattle.std.specs.Prelude.{◌≡◌, ℕ, List, ◌+◌, ◌-◌, ◌*◌, ◌%◌, ◌^◌, ◌<◌, ◌≤◌, drop, length, take};
ghost use Rattle.std.specs.Char.{is_ascii_digit};
ghost use Rattle.std.specs.List.{All, prefix_len};
ghost use Rattle.std.specs.Simd.Lanes.{number_l};
ghost use Rattle.jzon_base.specs.Digits.{digits_number, values_number};

use std::simd::prelude::*;

pub(crate) const EIGHT: usize = 8;

const POWERS_OF_TEN: [u64; 9] = [
    1,
    10,
    100,
    1_000,
    10_000,
    100_000,
    1_000_000,
    10_000_000,
    100_000_000,
];

/// The factor that makes place for `n` more digits.
#[inline(always)]
pub(crate) fn ten_to(n: usize) -> u64
    requires { n ≤ 8 }
    ensures { result ≡ 10 ^ n }
{
    POWERS_OF_TEN[n]
}

/// How many of the eight bytes from `start` on are leading digits, and the number that they spell.
#[inline(always)]
pub(crate) fn leading_digits(bytes: &[u8], start: usize) -> (usize, u64)
    requires { start + 8 ≤ length bytes.now }
    ensures count { result.0 ≡ prefix_len is_ascii_digit (take 8 (drop start bytes.now)) }
    ensures number { result.1 ≡ digits_number (take result.0 (drop start bytes.now)) }
{
    // The difference wraps: a byte that isn't a digit becomes a value above 9. The first byte is the
    // lowest in `others` and `word`.
    let values = u8x8::from_slice(&bytes[start..]) - u8x8::splat(b'0');
    let others = values.simd_gt(u8x8::splat(9)).to_bitmask();
    let word = u64::from_le_bytes(values.to_array());
    if others == 0 {
        return (EIGHT, number_of_eight(word));
    }
    let count = others.trailing_zeros();
    // With zeros before them, the `count` digits are eight digits of the same number.
    (count as usize, number_of_eight(last_bytes(word, count)))
}

/// The word with its lowest `count` bytes moved to the top, and zeros below.
#[inline(always)]
fn last_bytes(word: u64, count: u32) -> u64
    requires { count < 8 }
    ensures { result ≡ word * 256 ^ (8 - count) % 2 ^ 64 }
{
    // Two shifts, since a word can't be shifted by 64 bits.
    word << 8 << (56 - 8 * count)
}

/// The number that eight digits spell, their values in the bytes of a word, the first in the lowest
/// (`ds` in the contract). They are joined two by two, then four by four, then all.
#[inline(always)]
fn number_of_eight(word: u64) -> u64
    ensures { (ds : List ℕ) → length ds ≡ 8 → All (λ d. d < 10) ds → word ≡ number_l 256 ds
        → result ≡ values_number ds }
{
    // Each product adds to every part of the word 10, 100 or 10,000 times the part below it, which
    // spells the digits before. Shift and mask keep every other sum; the highest part wraps away.
    let pairs = (word.wrapping_mul(10 * 0x100 + 1) >> 8) & 0x00ff_00ff_00ff_00ff;
    let fours = (pairs.wrapping_mul(100 * 0x1_0000 + 1) >> 16) & 0x0000_ffff_0000_ffff;
    fours.wrapping_mul(10_000 * 0x1_0000_0000 + 1) >> 32
}
