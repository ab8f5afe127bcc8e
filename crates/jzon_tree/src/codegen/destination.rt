//! Where a `TextGenerator` writes. `put` adds a whole piece of a text (`pieces`) in a few stores,
//! or nothing. In clauses `Adds (Just bytes)` means that these bytes were added.

ghost use Rattle.std.specs.Prelude.{◌≡◌, ℕ, List, Option, None, Some, IsTrue, false, refl};
ghost use Rattle.std.specs.Borrow.{GName, sem, Lends};
ghost use Rattle.jzon_tree.specs.Generator.{Adds, Just};
ghost use Rattle.jzon_tree.specs.Generators.{bytes_in, with_bytes};

use crate::codegen::pieces::Piece;
use std::io::Write;

/// A writer with a `put`: `Buffered`. The trait hides its ghost field: beside a `&mut` of a struct
/// with one, the borrow checker admits no other type arguments.
pub(crate) trait Outlet: Write {
    /// Adds the piece, or returns `false` and adds nothing.
    fn put<P: Piece>(&mut self, piece: P) -> bool
        ensures done { IsTrue result → Adds (Just (P.text piece))
            (Self.Write.contents self.old) (Self.Write.contents self.new) }
        ensures left { result ≡ false → Self.Write.contents self.new
            ≡ Self.Write.contents self.old };
}

/// Memory, a borrowed writer, or such a writer with a buffer. What `put` doesn't add is written to
/// `writer`.
pub trait Destination {
    /// The writer.
    type T: Write;

    // The bytes written so far, if the writer reports them; and the reference that is written
    // through, if one is.
    ghost out: { Self → Option (List ℕ) };

    ghost lender: { Self → Option GName } = { λ _. None };

    // The destination with this writer instead of its own.
    ghost with_writer: { Self → Self.T → Self };

    /// Lends the writer; what it gets counts as the destination's (`writes_back`).
    fn writer(&mut self) -> &mut Self::T
        ensures* writes_back { sem 𝓛 (Lends Self.row Self.T.row self.entry result
            (with_writer self.old)) }
        ensures bytes { Self.T.contents result.now ≡ out self.old };

    /// Adds the piece, or returns `false`.
    #[inline(always)]
    fn put<P: Piece>(&mut self, piece: P) -> bool
        ensures done { IsTrue result → Adds (Just (P.text piece)) (out self.old) (out self.new) }
        ensures left { result ≡ false → out self.new ≡ out self.old }
        ensures lender { lender self.new ≡ lender self.old }
    {
        false
    }

    ghost out_law: { (o : Self) (w : Self.T) → out (with_writer o w) ≡ Self.T.contents w };

    ghost lender_law: { (o : Self) (w : Self.T) → lender (with_writer o w) ≡ lender o };
}

/// A vector. `put` adds only what its capacity holds; by `writer` it grows.
#[derive(Debug, Drop)]
pub struct Memory {
    pub(super) bytes: Vec<u8>,
}

impl Destination for Memory {
    type T = Vec<u8>;

    ghost out = { bytes_in };

    ghost with_writer = { with_bytes };

    fn writer(&mut self) -> &mut Vec<u8> {
        &mut self.bytes
    }

    #[inline(always)]
    fn put<P: Piece>(&mut self, piece: P) -> bool {
        if let Some(byte) = piece.as_byte() {
            if self.bytes.len() == self.bytes.capacity() {
                return false;
            }
            self.bytes.push_reserved(byte);
            return true;
        }
        let Some(seed) = piece.seed() else {
            return false;
        };
        let start = self.bytes.len();
        if self.bytes.capacity() - start < seed.len() {
            return false;
        }
        // The seed (it fits) is added first, for `Piece::put` to overwrite; its rest is cut off.
        let Ok(()) = self.bytes.extend_from_slice(seed) else {
            unreachable!()
        };
        // `None`: the piece needs an escape.
        let Some(end) = piece.put(self.bytes.as_mut_slice(), start, true) else {
            self.bytes.truncate(start);
            return false;
        };
        self.bytes.truncate(end);
        true
    }

    ghost out_law = { λ _ _. refl };

    ghost lender_law = { λ _ _. refl };
}

/// A borrowed writer, without a `put` of its own.
impl<'a, W: Write> Destination for &'a mut W {
    type T = W;

    ghost out = { λ o. W.contents o.now };

    ghost lender = { λ o. Some o.ghost_name };

    ghost with_writer = { λ o w. record o { now = w } };

    fn writer(&mut self) -> &mut W {
        &mut **self
    }

    ghost out_law = { λ _ _. refl };

    ghost lender_law = { λ _ _. refl };
}

/// A borrowed outlet. As `&mut W` it would have no `put`.
#[derive(Drop)]
pub struct Through<'a, W> {
    pub(crate) outlet: &'a mut W,
}

impl<'a, W: Outlet> Destination for Through<'a, W> {
    type T = W;

    ghost out = { λ p. W.Write.contents p.outlet.now };

    ghost lender = { λ p. Some p.outlet.ghost_name };

    ghost with_writer = { λ p w. record p { outlet = record p.outlet { now = w } } };

    fn writer(&mut self) -> &mut W {
        &mut *self.outlet
    }

    #[inline(always)]
    fn put<P: Piece>(&mut self, piece: P) -> bool {
        self.outlet.put(piece)
    }

    ghost out_law = { λ _ _. refl };

    ghost lender_law = { λ _ _. refl };
}
