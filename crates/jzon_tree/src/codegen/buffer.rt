//! The array in which `Buffered` collects bytes; in clauses `buffer_items` are these. A *short* piece
//! (`pieces`) is put by copies, which may change as many bytes as its *seed* has.

ghost use Rattle.std.specs.Prelude.{◌≡◌, ◌+◌, ◌≤◌, ◌++◌, [], false, length, IsTrue};
ghost use Rattle.jzon_tree.specs.declared.codegen.buffer.TheConstants.{BUFFER_LEN};

use crate::codegen::pieces::Piece;

/// The capacity in bytes. More are dearer to clear for each printed value; with fewer the writer is
/// called more often.
const BUFFER_LEN: usize = 1024;

/// Holds the first `len` of `bytes`.
#[derive(Drop)]
pub struct Buffer {
    pub(super) bytes: [u8; BUFFER_LEN],
    pub(super) len: usize,
    ghost size: { length bytes ≡ BUFFER_LEN },
    ghost within: { len ≤ BUFFER_LEN },
}

impl Buffer {
    ghost use Rattle.jzon_tree.specs.Private.Buffer.{buffer_items};

    /// An empty buffer.
    #[inline(always)]
    pub(super) fn new() -> Buffer
        ensures items { buffer_items result ≡ [] }
        ensures len { result.len ≡ 0 }
    {
        Buffer {
            bytes: [0; BUFFER_LEN],
            len: 0,
        }
    }

    /// How many more bytes fit.
    #[inline(always)]
    pub(super) fn free(&self) -> usize
        ensures { result + self.now.len ≡ BUFFER_LEN }
    {
        BUFFER_LEN - self.len
    }

    /// The bytes held.
    #[inline(always)]
    pub(super) fn as_slice(&self) -> &[u8]
        ensures { result.now ≡ buffer_items self.now }
    {
        &self.bytes[..self.len]
    }

    /// Adds bytes that fit.
    #[inline(always)]
    pub(super) fn add(&mut self, bytes: &[u8])
        requires { self.old.len + length bytes.now ≤ BUFFER_LEN }
        ensures items { buffer_items self.new ≡ buffer_items self.old ++ bytes.now }
        ensures len { self.new.len ≡ self.old.len + length bytes.now }
    {
        let end = self.len + bytes.len();
        self.bytes[self.len..end].copy_from_slice(bytes);
        self.len = end;
    }

    /// Adds the piece and returns `true`; or adds nothing, if the piece isn't short, needs an
    /// escape, or its seed is longer than the free bytes.
    #[inline(always)]
    pub(super) fn put<P: Piece>(&mut self, piece: P) -> bool
        ensures done { IsTrue result → buffer_items self.new
            ≡ buffer_items self.old ++ P.text piece }
        ensures left { result ≡ false → buffer_items self.new ≡ buffer_items self.old }
        ensures len { self.old.len ≤ self.new.len }
    {
        let Some(seed) = piece.seed() else {
            return false;
        };
        // A seed's length is a constant, so one comparison is left.
        if seed.len() > BUFFER_LEN || self.len > BUFFER_LEN - seed.len() {
            return false;
        }
        let Some(end) = piece.put(&mut self.bytes, self.len, false) else {
            return false;
        };
        self.len = end;
        true
    }
}
