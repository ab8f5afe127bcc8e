//! Which bytes are at an offset of a text.

ghost use Rattle.std.specs.Prelude.{◌≡◌, ◌<◌, ◌≤◌, ◌+◌, ◌↔◌, length, IsTrue, slice_index};

/// The byte at `index`, or 0 past the end: no token begins with 0.
#[inline(always)]
pub(crate) fn byte_at(source: &str, index: usize) -> u8
    ensures { result ≡ slice_index source.now index }
{
    match source.as_bytes().get(index) {
        Some(byte) => *byte,
        None => 0,
    }
}

/// Whether the text has this byte at `index`; `false` past its end.
pub(crate) fn has_byte(source: &str, index: usize, byte: u8) -> bool
    ensures { IsTrue result
        ↔ ((index < length source.now) × (slice_index source.now index ≡ byte)) }
{
    let bytes = source.as_bytes();
    index < bytes.len() && bytes[index] == byte
}

/// Whether the bytes from `index` on begin with `four`, compared at once as one `u32`.
#[inline(always)]
pub(crate) fn has_four(source: &str, index: usize, four: [u8; 4]) -> bool
    requires { index ≤ length source.now }
    ensures within { IsTrue result → index + 4 ≤ length source.now }
    ensures first { IsTrue result → slice_index source.now index ≡ slice_index four 0 }
    ensures second { IsTrue result → slice_index source.now (index + 1) ≡ slice_index four 1 }
    ensures third { IsTrue result → slice_index source.now (index + 2) ≡ slice_index four 2 }
    ensures fourth { IsTrue result → slice_index source.now (index + 3) ≡ slice_index four 3 }
    ensures all { index + 4 ≤ length source.now → slice_index source.now index ≡ slice_index four 0
        → slice_index source.now (index + 1) ≡ slice_index four 1
        → slice_index source.now (index + 2) ≡ slice_index four 2
        → slice_index source.now (index + 3) ≡ slice_index four 3 → IsTrue result }
{
    match &source.as_bytes()[index..] {
        [a, b, c, d, ..] => u32::from_le_bytes([*a, *b, *c, *d]) == u32::from_le_bytes(four),
        _ => false,
    }
}
