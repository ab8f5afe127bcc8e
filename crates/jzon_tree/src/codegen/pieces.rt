//! *Pieces* of a text, such as a number. A *short* one can be *put*: stored by a few copies of
//! fixed length. A vector lends no bytes beyond its length, so it is first extended by a *seed*: as
//! many bytes as the copies may change, some of which are right already.

ghost use Rattle.std.specs.Prelude.{◌≡◌, ◌+◌, ◌<◌, ◌≤◌, ◌++◌, ◌∷◌, [], ⊤, ℕ, List, None, IfNone, IfSome, IsTrue, length, take, drop, replicate};
ghost use Rattle.jzon_base.specs.Decimal.{parts_of};
ghost use Rattle.jzon_base.specs.NumberText.{IsCommon, written_text};
ghost use Rattle.jzon_base.specs.Tokens.{minus_sign, quotation_mark};
ghost use Rattle.jzon_base.specs.declared.util.print_dec.TheConstants.{DIGITS_ROOM};
ghost use Rattle.jzon_tree.specs.Text.{quoted};
ghost use Rattle.jzon_tree.specs.Writing.{colon_text};
ghost use Rattle.jzon_tree.specs.declared.codegen.layout.TheConstants.{LINE_ROOM};
ghost use Rattle.jzon_tree.specs.declared.codegen.strings.TheConstants.{BY_ENDS_MAX_LEN, BY_ENDS_ROOM};

use crate::codegen::layout::{LINE_ROOM, NEWLINE_AND_SPACES, put_newline_and_spaces};
use crate::codegen::strings::{BY_ENDS_MAX_LEN, BY_ENDS_ROOM, put_quoted};
use jzon_base::number::Number;
use jzon_base::util::print_dec::{DIGITS_ROOM, is_common, put_digits};

/// The seed of a key, with its colon and space; a part is that of any other string. The quotes
/// around a string are there already.
const QUOTES: [u8; BY_ENDS_ROOM + 2] = [b'"'; BY_ENDS_ROOM + 2];

/// The seed of a number: a minus is there already.
const MINUSES: [u8; DIGITS_ROOM] = [b'-'; DIGITS_ROOM];

pub trait Piece: Copy {
    // Its bytes.
    ghost text: { Self → List ℕ };

    // It can be put.
    ghost is_short: { Self → Type 0 };

    // As many bytes as `put` may change, some of which it then needn't store.
    ghost seed_bytes: { Self → List ℕ };

    /// The byte, if the piece is one: a vector takes it in fewer stores than a seed.
    #[inline(always)]
    fn as_byte(self) -> Option<u8>
        ensures { IfSome result (λ byte. text self ≡ byte ∷ []) }
    {
        None
    }

    /// The seed, or `None` if the piece isn't short.
    fn seed(self) -> Option<&'static [u8]>
        ensures some { IfSome result (λ seed. is_short self × (seed.now ≡ seed_bytes self)) }
        ensures none { IfNone result (¬ (is_short self)) };

    /// Puts a short piece at the offset, and returns its end, or `None` if it needs an escape. The
    /// bytes before the offset stay; if `seeded`, the others are the seed.
    fn put(self, room: &mut [u8], start: usize, seeded: bool) -> Option<usize>
        requires short { is_short self }
        requires room { start + length (seed_bytes self) ≤ length room.old }
        requires seed { IsTrue seeded → drop start room.old ≡ seed_bytes self }
        ensures text { IfSome result (λ end. take end room.new ≡ take start room.old ++ text self) }
        ensures within { IfSome result
            (λ end. (start ≤ end) × (end ≤ start + length (seed_bytes self))) }
        ensures left { result ≡ None → room.new ≡ room.old }
        ensures len { length room.new ≡ length room.old };
}

impl Piece for u8 {
    ghost text = { λ byte. byte ∷ [] };

    ghost is_short = { λ _. ⊤ };

    // Any byte would do: `put` replaces it.
    ghost seed_bytes = { λ _. 32 ∷ [] };

    #[inline(always)]
    fn as_byte(self) -> Option<u8> {
        Some(self)
    }

    #[inline(always)]
    fn seed(self) -> Option<&'static [u8]> {
        Some(b" ")
    }

    #[inline(always)]
    fn put(self, room: &mut [u8], start: usize, _seeded: bool) -> Option<usize> {
        room[start] = self;
        Some(start + 1)
    }
}

/// A string that is printed in quotes; it is put if it needs no escape.
#[derive(Clone, Copy)]
pub struct Quoted<'a>(pub &'a [u8]);

impl Piece for Quoted<'_> {
    ghost text = { λ string. quoted string.0.now };

    ghost is_short = { λ string. length string.0.now ≤ BY_ENDS_MAX_LEN };

    ghost seed_bytes = { λ _. replicate BY_ENDS_ROOM quotation_mark };

    #[inline(always)]
    fn seed(self) -> Option<&'static [u8]> {
        if self.0.len() > BY_ENDS_MAX_LEN {
            return None;
        }
        Some(&QUOTES[..BY_ENDS_ROOM])
    }

    #[inline(always)]
    fn put(self, room: &mut [u8], start: usize, seeded: bool) -> Option<usize> {
        put_quoted(room, start, self.0, seeded)
    }
}

/// A key in quotes, with a colon and, if `true`, a space.
#[derive(Clone, Copy)]
pub struct QuotedKey<'a>(pub &'a [u8], pub bool);

impl Piece for QuotedKey<'_> {
    ghost text = { λ key. quoted key.0.now ++ colon_text key.1 };

    ghost is_short = { λ key. length key.0.now ≤ BY_ENDS_MAX_LEN };

    ghost seed_bytes = { λ _. replicate (BY_ENDS_ROOM + 2) quotation_mark };

    /// `None` for more than `BY_ENDS_MAX_LEN` (32) bytes.
    #[inline(always)]
    fn seed(self) -> Option<&'static [u8]> {
        if self.0.len() > BY_ENDS_MAX_LEN {
            return None;
        }
        Some(&QUOTES)
    }

    #[inline(always)]
    fn put(self, room: &mut [u8], start: usize, seeded: bool) -> Option<usize> {
        let end = put_quoted(room, start, self.0, seeded)?;
        // The space is counted only if wanted.
        room[end] = b':';
        room[end + 1] = b' ';
        Some(end + 1 + usize::from(self.1))
    }
}

/// The text of a number, `null` for NaN.
impl Piece for Number {
    ghost text = { written_text };

    // NaN has the mantissa 0, so it isn't short.
    ghost is_short = { λ number. IsCommon (parts_of number).1 (parts_of number).2 };

    ghost seed_bytes = { λ _. replicate DIGITS_ROOM minus_sign };

    /// `None` for what `put_digits` can't put: NaN, 0, and numbers with a positive exponent, more
    /// than 16 digits after the point or none before it.
    #[inline(always)]
    fn seed(self) -> Option<&'static [u8]> {
        let (_, mantissa, exponent) = self.as_parts();
        if !is_common(mantissa, exponent) {
            return None;
        }
        Some(&MINUSES)
    }

    #[inline(always)]
    fn put(self, room: &mut [u8], start: usize, seeded: bool) -> Option<usize> {
        // `put_digits` needs the minus; a positive number overwrites it.
        if !seeded {
            room[start] = b'-';
        }
        let (positive, mantissa, exponent) = self.as_parts();
        Some(put_digits(room, start, positive, mantissa, exponent))
    }
}

/// A newline and this many spaces. The seed has 7, the most of a short one.
#[derive(Clone, Copy)]
pub struct Line(pub u128);

impl Piece for Line {
    ghost text = { λ line. 10 ∷ replicate line.0 32 };

    ghost is_short = { λ line. line.0 < LINE_ROOM };

    ghost seed_bytes = { λ _. 10 ∷ replicate 7 32 };

    #[inline(always)]
    fn seed(self) -> Option<&'static [u8]> {
        if self.0 >= LINE_ROOM as u128 {
            return None;
        }
        Some(&NEWLINE_AND_SPACES[..LINE_ROOM])
    }

    #[inline(always)]
    fn put(self, room: &mut [u8], start: usize, seeded: bool) -> Option<usize> {
        if !seeded {
            put_newline_and_spaces(room, start);
        }
        Some(start + (self.0 as usize + 1))
    }
}
