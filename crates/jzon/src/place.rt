//! Places in a text, and how lines and columns are counted (docs/RULES.md, "Errors").

ghost use Rattle.std.specs.Prelude.{◌≡◌, ◌+◌, ◌≤◌, SomeIff, count_by, drop, chars, length, take};
ghost use Rattle.std.specs.Str.{IsCharBoundary};
ghost use Rattle.jzon.specs.Fault.{line, column};
ghost use Rattle.jzon.specs.Located.{place_at};
ghost use Rattle.jzon.specs.Private.Lines.{is_below};

use std::simd::prelude::*;

/// How many bytes are compared at once.
const LANES: usize = 16;

/// A place in a text: a character, or the end.
#[derive(Clone, Copy, Debug, PartialEq, Eq)]
pub struct Place {
    /// The bytes before it.
    pub offset: usize,
    /// The line, counted from 1.
    pub line: usize,
    /// The column, counted from 1 in characters.
    pub column: usize,
}

impl Place {
    /// The place after `offset` bytes of the text: `Place::at("[1,\n 2]", 5)` is in line 2, column 2.
    /// `None` if the offset is inside a character or beyond the end. Reads the text up to there.
    pub fn at(text: &str, offset: usize) -> Option<Place>
        ensures { SomeIff result (IsCharBoundary text.now offset) (place_at text.now offset) }
    {
        if !text.is_char_boundary(offset) {
            return None;
        }
        Some(Place::at_boundary(text, offset))
    }

    /// The place at an offset known to be that of a character or of the end.
    pub(crate) fn at_boundary(text: &str, offset: usize) -> Place
        requires { IsCharBoundary text.now offset }
        ensures { result ≡ place_at text.now offset }
    {
        let prefix = &text[..offset];
        let line = line_after(prefix);
        // In the first line no newline is looked for.
        let column = if line == 1 {
            characters(prefix) + 1
        } else {
            column_after(prefix)
        };
        Place {
            offset,
            line,
            column,
        }
    }
}

/// The line, from 1, of the place after `prefix`. After `^ b'\n'` only a newline is below 1.
fn line_after(prefix: &str) -> usize
    ensures { result ≡ line (chars prefix.now) }
{
    count_below(prefix.as_bytes(), b'\n', 1) + 1
}

/// The column, from 1, of the place after `prefix`: 1 more than the characters since the last
/// newline.
fn column_after(prefix: &str) -> usize
    ensures { result ≡ column (chars prefix.now) }
{
    match prefix.rfind('\n') {
        None => characters(prefix) + 1,
        Some(newline) => characters(&prefix[newline + 1..]) + 1,
    }
}

/// How many characters a text has. It counts the bytes that begin one, all but 128 to 191: `^ 127`
/// makes those 192 to 255.
fn characters(text: &str) -> usize
    ensures count { result ≡ length (chars text.now) }
    ensures within { result ≤ length text.now }
{
    count_below(text.as_bytes(), 127, 192)
}

/// How many bytes are below `bound` after `^ turn`, `LANES` at once.
fn count_below(bytes: &[u8], turn: u8, bound: u8) -> usize
    ensures count { result ≡ count_by (is_below turn bound) bytes.now }
    ensures within { result ≤ length bytes.now }
{
    let mut count = 0;
    let mut start = 0;
    while bytes.len() - start >= LANES {
        count += count_in_lanes(bytes, start, turn, bound);
        start += LANES;
    }
    count + count_by_bytes(&bytes[start..], turn, bound)
}

/// How many bytes are below `bound` after `^ turn`, byte by byte.
fn count_by_bytes(bytes: &[u8], turn: u8, bound: u8) -> usize
    ensures { result ≡ count_by (is_below turn bound) bytes.now }
{
    bytes.iter().filter(|byte| (**byte ^ turn) < bound).count()
}

/// How many of the `LANES` bytes at `start` are below `bound` after `^ turn`.
#[inline(always)]
fn count_in_lanes(bytes: &[u8], start: usize, turn: u8, bound: u8) -> usize
    requires { start + LANES ≤ length bytes.now }
    ensures { result ≡ count_by (is_below turn bound) (take LANES (drop start bytes.now)) }
{
    let lanes = Simd::<u8, 16>::from_slice(&bytes[start..]);
    let below = (lanes ^ Simd::splat(turn)).simd_lt(Simd::splat(bound));
    below.to_bitmask().count_ones() as usize
}
