//! Text stored inline, in its owner: the `ArrayString` of the toolchain's crate `arrayvec`.
ghost use Rattle.std.specs.Prelude.{◌≡◌, ◌≤◌, length, take};
ghost use Rattle.std.specs.Str.{IsCharBoundary};

use arrayvec::ArrayString;

/// Copies the text into an `ArrayString`.
#[inline(always)]
pub(crate) fn text_in<const MAX: usize>(text: &str) -> ArrayString<MAX>
    requires { length text.now ≤ MAX }
    ensures { result.bytes ≡ text.now }
{
    let mut inline = ArrayString::new();
    inline.push_str(text);
    inline
}

/// Copies `text`, a prefix of `wide`, which must have a character boundary at `MAX`: `MAX` bytes of
/// `wide` are copied, then cut, because a copy of a fixed number of bytes takes no call.
#[inline(always)]
#[tactic(auto, using(crate::proofs::Strings::CopiedPrefixes::splits_front))]
pub(crate) fn front_of<const MAX: usize>(text: &str, wide: &str) -> ArrayString<MAX>
    requires short { length text.now ≤ MAX }
    requires wide { take (length text.now) wide.now ≡ text.now }
    requires cut { IsCharBoundary wide.now MAX }
    ensures { result.bytes ≡ text.now }
{
    let mut inline = ArrayString::new();
    inline.push_str(&wide[..MAX]);
    inline.truncate(text.len());
    inline
}
