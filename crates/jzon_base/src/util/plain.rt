//! Finds the first byte that needs an escape (RFC 8259, section 7), many bytes at once. A byte that
//! needs none is *plain*: from 32 on, and neither a quote nor a backslash.

ghost use Rattle.std.specs.Prelude.{◌≡◌, ◌+◌, ◌<◌, ◌≤◌, drop, length, take, IsTrue};
ghost use Rattle.std.specs.Int.{w64, trailing_zeros};
ghost use Rattle.std.specs.List.{prefix_len};
ghost use Rattle.jzon_base.specs.Private.PlainBytes.{is_plain};

use std::simd::prelude::*;

/// How many bytes are compared at once.
const BLOCK: usize = 32;

const HALF: usize = 16;

/// The length of the plain prefix. The quote after a string mostly ends it within `HALF` bytes,
/// which are compared here without a call.
#[inline(always)]
pub fn plain_len(bytes: &[u8]) -> usize
    ensures { result ≡ prefix_len is_plain bytes.now }
{
    if bytes.len() < HALF {
        return plain_in_few(bytes);
    }
    let plain = plain_in_lanes::<16>(bytes, 0);
    if plain < HALF {
        return plain;
    }
    plain_after_half(bytes)
}

/// The length of the plain prefix of fewer than `HALF` bytes.
#[inline(never)]
fn plain_in_few(bytes: &[u8]) -> usize
    requires { length bytes.now < HALF }
    ensures { result ≡ prefix_len is_plain bytes.now }
{
    match bytes.len() {
        0..=3 => plain_by_bytes(bytes),
        4..=7 => plain_by_ends::<4>(bytes),
        _ => plain_by_ends::<8>(bytes),
    }
}

/// The length of the plain prefix, byte by byte.
fn plain_by_bytes(bytes: &[u8]) -> usize
    ensures { result ≡ prefix_len is_plain bytes.now }
{
    bytes
        .iter()
        .take_while(|&&byte| byte >= 32 && byte != b'"' && byte != b'\\')
        .count()
}

/// The length of the plain prefix of `N` to `2 * N` bytes: the first `N` and the last `N`, which
/// may overlap.
#[inline(always)]
fn plain_by_ends<const N: usize>(bytes: &[u8]) -> usize
    requires few { N ≤ 32 }
    requires room { N ≤ length bytes.now }
    requires covered { length bytes.now ≤ N + N }
    ensures { result ≡ prefix_len is_plain bytes.now }
{
    let plain = plain_in_lanes::<N>(bytes, 0);
    if plain < N {
        return plain;
    }
    let last = bytes.len() - N;
    last + plain_in_lanes::<N>(bytes, last)
}

/// The length of the plain prefix of bytes whose first `HALF` are plain, block by block. The last
/// block ends where the bytes do, so it may overlap the one before.
#[inline(never)]
fn plain_after_half(bytes: &[u8]) -> usize
    requires { HALF ≤ prefix_len is_plain bytes.now }
    ensures { result ≡ prefix_len is_plain bytes.now }
{
    if bytes.len() < BLOCK {
        let last = bytes.len() - HALF;
        return last + plain_in_lanes::<16>(bytes, last);
    }
    let last = bytes.len() - BLOCK;
    let mut start = HALF;
    while start < last {
        let plain = plain_in_lanes::<32>(bytes, start);
        if plain < BLOCK {
            return start + plain;
        }
        start += BLOCK;
    }
    last + plain_in_lanes::<32>(bytes, last)
}

/// Whether `N` to `2 * N` bytes are plain: the first `N` and the last `N`, which may overlap, are
/// put side by side and compared at once. The contract says only what `true` means: at `false`
/// callers look for escapes.
#[inline(always)]
pub fn is_plain_by_ends<const N: usize, const M: usize>(bytes: &[u8]) -> bool
    requires lanes { (M ≤ 32) × (M ≡ N + N) }
    requires ends { (N ≤ length bytes.now) × (length bytes.now ≤ N + N) }
    ensures { IsTrue result → length bytes.now ≤ prefix_len is_plain bytes.now }
{
    let mut both = [0; M];
    let ends = &mut both[..];
    Simd::<u8, N>::from_slice(bytes).copy_to_slice(ends);
    Simd::<u8, N>::from_slice(&bytes[bytes.len() - N..]).copy_to_slice(&mut ends[N..]);
    escapes_in_lanes::<M>(ends, 0) == 0
}

/// How many of the `N` bytes from `start` on come before the first that isn't plain.
#[inline(always)]
fn plain_in_lanes<const N: usize>(bytes: &[u8], start: usize) -> usize
    requires few { N ≤ 32 }
    requires room { start + N ≤ length bytes.now }
    ensures { result ≡ prefix_len is_plain (take N (drop start bytes.now)) }
{
    let mask = escapes_in_lanes::<N>(bytes, start);
    if mask == 0 {
        N
    } else {
        mask.trailing_zeros() as usize
    }
}

/// Which of the `N` bytes from `start` on aren't plain, a bit for each, the first byte's lowest.
#[inline(always)]
fn escapes_in_lanes<const N: usize>(bytes: &[u8], start: usize) -> u64
    requires few { N ≤ 32 }
    requires room { start + N ≤ length bytes.now }
    ensures none { result ≡ 0 → N ≡ prefix_len is_plain (take N (drop start bytes.now)) }
    ensures some { ¬ (result ≡ 0) → trailing_zeros w64 result
        ≡ prefix_len is_plain (take N (drop start bytes.now)) }
{
    let lanes = Simd::<u8, N>::from_slice(&bytes[start..]);
    // `^ 2` makes a quote, 34, into 32, and keeps the bytes below 32 there: one comparison finds both.
    let low = (lanes ^ Simd::splat(2)).simd_lt(Simd::splat(33));
    let stops = low | lanes.simd_eq(Simd::splat(b'\\'));
    stops.to_bitmask()
}
