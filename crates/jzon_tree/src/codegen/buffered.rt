//! A writer with a buffer on the stack. In clauses `untaken` are the buffer's bytes that the writer
//! hasn't accepted, and `held` the writer's bytes followed by these.

ghost use Rattle.std.specs.Prelude.{◌≡◌, ℕ, ◌+◌, ◌≤◌, [], length, take, MatchOption, OnErr, OnOk, IfNone, IsErr, IsSome};
ghost use Rattle.std.specs.Io.KnownBytes.{Appends, Keeps};

use crate::codegen::buffer::Buffer;
use crate::codegen::destination::Outlet;
use crate::codegen::pieces::Piece;
use std::io::{self, ErrorKind, Write};
use std::marker::{Brand, PhantomData};

/// For proofs: how many bytes the writer had before the buffer was made, none of which is lost.
pub(crate) trait Start {
    ghost start: { ℕ };
}

/// The 0 is unused: the proof of each call that passes `Brand` picks a number.
impl Start for Brand {
    ghost start = { 0 };
}

/// Collects bytes, and writes them to `inner` when the next don't fit. Those that a failing writer
/// didn't accept are kept. `S` is for proofs (`Start`).
#[derive(Drop)]
pub(crate) struct Buffered<'a, W, S> {
    pub(crate) inner: &'a mut W,
    buffer: Buffer,
    /// How many bytes of `buffer` the writer has accepted.
    taken: usize,
    /// Whether the writer failed and left bytes in `buffer`.
    has_failed: bool,
    /// The error of `write_out_and_hold`, until `write` returns it.
    error: Option<io::Error>,
    since: PhantomData<S>,
    ghost within: { taken ≤ buffer.len },
}

impl<'a, W: Write, S: Start> Buffered<'a, W, S> {
    ghost use Rattle.jzon_tree.specs.Private.Buffered.{held, untaken};

    /// An empty buffer before the writer.
    #[inline(always)]
    pub(crate) fn new(inner: &'a mut W) -> Buffered<'a, W, S>
        ensures same_reference { result.inner.ghost_name ≡ inner.entry.ghost_name }
        ensures writer { result.inner.now ≡ inner.old }
        ensures bytes { untaken result ≡ [] }
    {
        Buffered {
            inner,
            buffer: Buffer::new(),
            taken: 0,
            has_failed: false,
            error: None,
            since: PhantomData,
        }
    }

    /// Ends a text whose writing returned `answer`. Writes out the buffer, unless the writer has
    /// failed: so if a layout's `order` fails, all before is written. A new error replaces
    /// `answer`.
    #[inline(always)]
    pub(crate) fn finish(&mut self, answer: io::Result<()>) -> io::Result<()>
        ensures bytes { Keeps (held W.contents S.start self.old)
            (held W.contents S.start self.new) }
        ensures all { OnOk result (untaken self.new ≡ []) }
        ensures error { OnErr answer (IsErr result) }
    {
        match answer {
            Ok(()) => self.write_out(),
            Err(_) if self.has_failed => answer,
            Err(_) => {
                self.write_out()?;
                answer
            }
        }
    }

    /// Writes the untaken bytes, without a flush. An error is the writer's, or `WriteZero` where it
    /// accepted none.
    #[cold]
    #[inline(never)]
    fn write_out(&mut self) -> io::Result<()>
        ensures bytes { Keeps (held W.contents S.start self.old)
            (held W.contents S.start self.new) }
        ensures all { OnOk result (untaken self.new ≡ []) }
        ensures empty { OnOk result (self.new.buffer.len ≡ 0) }
    {
        // It stays `true` if the writer fails.
        self.has_failed = true;
        while self.taken < self.buffer.len {
            let buffer = &self.buffer;
            let count = self.inner.write(&buffer.as_slice()[self.taken..])?;
            if count == 0 {
                return Err(io::Error::from(ErrorKind::WriteZero));
            }
            self.taken += count;
        }
        self.has_failed = false;
        self.taken = 0;
        self.buffer.len = 0;
        Ok(())
    }

    /// Writes out the buffer, and adds `buf` to it, or writes `buf` if it is longer than the
    /// buffer. Returns how many bytes of `buf` were accepted, or `None` after an error, then in
    /// `self.error`.
    #[cold]
    #[inline(never)]
    fn write_out_and_hold(&mut self, buf: &[u8]) -> Option<usize>
        ensures bytes { MatchOption result (Keeps (held W.contents S.start self.old)
            (held W.contents S.start self.new))
            (λ count. (count ≤ length buf.now)
            × Appends (held W.contents S.start self.old) (held W.contents S.start self.new)
            (take count buf.now)) }
        ensures stored { IfNone result (IsSome self.new.error) }
    {
        if let Err(error) = self.write_out() {
            self.error = Some(error);
            return None;
        }
        if buf.len() <= self.buffer.free() {
            self.buffer.add(buf);
            return Some(buf.len());
        }
        match self.inner.write(buf) {
            Ok(count) => Some(count),
            Err(error) => {
                self.error = Some(error);
                None
            }
        }
    }
}

impl<W: Write, S: Start> Write for Buffered<'_, W, S> {
    ghost use Rattle.jzon_tree.specs.Private.Buffered.{held};

    ghost contents = { held W.contents S.start };

    /// Adds the bytes to the buffer, which is written out first if they don't fit.
    #[inline(always)]
    fn write(&mut self, buf: &[u8]) -> io::Result<usize> {
        if buf.len() <= self.buffer.free() {
            self.buffer.add(buf);
            return Ok(buf.len());
        }
        match self.write_out_and_hold(buf) {
            Some(count) => Ok(count),
            // An error is stored, so `Other` is never returned.
            None => Err(
                self.error
                    .take()
                    .unwrap_or(io::Error::from(ErrorKind::Other)),
            ),
        }
    }

    fn flush(&mut self) -> io::Result<()> {
        self.write_out()?;
        self.inner.flush()
    }
}

impl<W: Write, S: Start> Outlet for Buffered<'_, W, S> {
    #[inline(always)]
    fn put<P: Piece>(&mut self, piece: P) -> bool {
        self.buffer.put(piece)
    }
}
