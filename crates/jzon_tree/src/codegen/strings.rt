//! Strings and their escapes (docs/RULES.md, "Printed values"). In clauses `PutsPlain` says that a
//! string was put and the next byte stays; at `false`, that all bytes stay.

ghost use Rattle.std.specs.Prelude.{◌≡◌, ◌+◌, ◌≤◌, ◌++◌, false, None, length, take, drop, replicate, IsTrue, IfSome};
ghost use Rattle.jzon_base.specs.Private.PlainBytes.{is_plain};
ghost use Rattle.jzon_base.specs.Tokens.{quotation_mark};
ghost use Rattle.jzon_tree.specs.Private.Printing.{PutsPlain};
ghost use Rattle.jzon_tree.specs.Text.{escaped_byte, quoted};

use jzon_base::util::escapes::{hex_digit, letter_of};
use jzon_base::util::plain::is_plain_by_ends;
use std::simd::Simd;

/// The length of the longest escape, such as `\u001f`.
pub(super) const ESCAPE_MAX_LEN: usize = 6;

/// The most bytes of a string that is put by two copies, of its first and of its last bytes.
pub(super) const BY_ENDS_MAX_LEN: usize = 32;

/// The most bytes of such a string (`BY_ENDS_MAX_LEN`) in quotes.
pub(super) const BY_ENDS_ROOM: usize = BY_ENDS_MAX_LEN + 2;

/// Puts a string of at most 32 bytes in quotes at an offset, and returns its end, or `None` if it
/// needs an escape. The bytes before the offset stay; if `seeded`, the next `BY_ENDS_ROOM` are
/// quotes.
#[inline(always)]
pub(super) fn put_quoted(
    room: &mut [u8],
    start: usize,
    string: &[u8],
    seeded: bool,
) -> Option<usize>
    requires few { length string.now ≤ BY_ENDS_MAX_LEN }
    requires room { start + BY_ENDS_ROOM ≤ length room.old }
    requires quotes { IsTrue seeded → take BY_ENDS_ROOM (drop start room.old)
        ≡ replicate BY_ENDS_ROOM quotation_mark }
    ensures text { IfSome result (λ end. take end room.new
        ≡ take start room.old ++ quoted string.now) }
    ensures end { IfSome result (λ end. end ≡ start + (length string.now + 2)) }
    ensures left { result ≡ None → room.new ≡ room.old }
    ensures len { length room.new ≡ length room.old }
{
    if !put_if_plain(room, start + 1, string) {
        return None;
    }
    let end = start + (string.len() + 2);
    if !seeded {
        room[start] = b'"';
        room[end - 1] = b'"';
    }
    Some(end)
}

/// Puts a string of at most 32 bytes at an offset if it needs no escape, and returns whether it did.
/// The next byte, the caller's quote, stays. In each case two copies of fixed length suffice. Up to
/// 3 bytes have a `match` of their own, so that longer strings take fewer tests.
#[inline(always)]
fn put_if_plain(bytes: &mut [u8], offset: usize, string: &[u8]) -> bool
    requires few { length string.now ≤ BY_ENDS_MAX_LEN }
    requires within { offset + length string.now ≤ length bytes.old }
    ensures { PutsPlain offset string.now bytes.old bytes.new result }
{
    match string.len() {
        0..=3 => match string.len() {
            0 => true,
            1 => put_ends::<1, 2>(bytes, offset, string),
            _ => put_ends::<2, 4>(bytes, offset, string),
        },
        4..=7 => put_ends::<4, 8>(bytes, offset, string),
        8..=15 => put_ends::<8, 16>(bytes, offset, string),
        _ => put_ends::<16, 32>(bytes, offset, string),
    }
}

/// Puts `N` to `2 * N` bytes if they need no escape, and returns whether it did: the first `N` and
/// the last `N`, which may overlap.
#[inline(always)]
fn put_ends<const N: usize, const M: usize>(bytes: &mut [u8], at: usize, string: &[u8]) -> bool
    requires lanes { (M ≤ 32) × (M ≡ N + N) }
    requires ends { (N ≤ length string.now) × (length string.now ≤ N + N) }
    requires within { at + length string.now ≤ length bytes.old }
    ensures { PutsPlain at string.now bytes.old bytes.new result }
{
    if !is_plain_by_ends::<N, M>(string) {
        return false;
    }
    let start = string.len() - N;
    Simd::<u8, N>::from_slice(string).copy_to_slice(&mut bytes[at..]);
    Simd::<u8, N>::from_slice(&string[start..]).copy_to_slice(&mut bytes[at + start..]);
    true
}

/// Puts the escape of a byte at the end of `room`, and returns where it begins.
pub(super) fn put_escape(room: &mut [u8; ESCAPE_MAX_LEN], byte: u8) -> usize
    requires { is_plain byte ≡ false }
    ensures start { result ≤ ESCAPE_MAX_LEN }
    ensures text { drop result room.new ≡ escaped_byte byte }
{
    // A simple escape, such as `\n`. Each other byte that needs one is below 32.
    if let Some(letter) = letter_of(byte) {
        *room = [0, 0, 0, 0, b'\\', letter];
        return 4;
    }
    let high = hex_digit(byte / 16);
    let low = hex_digit(byte % 16);
    *room = [b'\\', b'u', b'0', b'0', high, low];
    0
}
