//! Moves in a text past brackets, commas and colons and the whitespace after them. Clauses compare
//! them with the moves of an automaton (docs/ARCHITECTURE.md), for any open containers `fs`.

ghost use Rattle.std.specs.Prelude.{◌≡◌, ◌≢◌, ◌<◌, ◌≤◌, ◌+◌, length, chars, drop, false, slice_index, Err, IfOk, None, if◌then◌else◌};
ghost use Rattle.std.specs.Str.{IsCharBoundary, IsUtf8};
ghost use Rattle.jzon_tree.specs.Writing.{is_whitespace};
ghost use Rattle.jzon.specs.Private.Brackets.{opener, closer, empty_container, after_opener};
ghost use Rattle.jzon.specs.Private.Machine.{Frames, frames_depth, value_mark, before, after_value, from, fault_here, Reports};

use crate::bytes_at::byte_at;
use crate::container_kind::ContainerKind;
use crate::reading::Reading;
use crate::stop::{Result, Stop, fault_at, too_deep};
use crate::whitespace::skip_whitespace;

/// A text, the offset up to which it is read, and how. The offset is never at whitespace.
#[derive(Clone, Copy)]
pub(crate) struct Cursor<'a> {
    pub(crate) source: &'a str,
    pub(crate) index: usize,
    pub(crate) reading: Reading,
    ghost utf8: { ∥ IsUtf8 source.now ∥₁ },
    ghost boundary: { IsCharBoundary source.now index },
    ghost past_whitespace: { index < length source.now
        → is_whitespace reading.strict (slice_index source.now index)
        ≡ false },
}

impl<'a> Cursor<'a> {
    ghost use Rattle.jzon.specs.Private.Cursor.{next_byte, IsPast, GoesOn, EndsItem, EndsKey};

    /// The cursor at the first token of a text, or at its end.
    pub(crate) fn new(source: &'a str, reading: Reading) -> Cursor<'a>
        ensures { IsPast reading source.now 0 result }
    {
        Cursor {
            source,
            index: skip_whitespace(source, reading, 0),
            reading,
        }
    }

    /// The byte at the cursor, or 0 at the end of the text.
    #[inline(always)]
    pub(crate) fn peek(&self) -> u8
        ensures { result ≡ next_byte self.now }
    {
        byte_at(self.source, self.index)
    }

    /// Moves past the token that ends at `end`, and the whitespace after it.
    #[inline(always)]
    pub(crate) fn go_to(&mut self, end: usize)
        requires { IsCharBoundary self.old.source.now end }
        ensures { IsPast self.old.reading self.old.source.now end self.new }
    {
        self.index = skip_whitespace(self.source, self.reading, end);
    }

    /// Moves past the byte at the cursor, a bracket or a colon, and the whitespace after it.
    #[inline(always)]
    pub(crate) fn bump(&mut self)
        requires some { 0 < next_byte self.old }
        requires ascii { next_byte self.old < 128 }
        ensures { IsPast self.old.reading self.old.source.now (self.old.index + 1) self.new }
    {
        self.go_to(self.index + 1);
    }

    /// The stop for a text that has no valid continuation at the cursor.
    #[inline(always)]
    pub(crate) fn fault(&self) -> Stop
        ensures { Reports self.now.source.now result
            (fault_here (chars (drop self.now.index self.now.source.now))) }
    {
        fault_at(self.source, self.index)
    }

    /// Moves past the opening bracket at the cursor, inside of `depth` containers. If the container
    /// is empty, moves past the closing one too, and returns `true`. Else returns `false`, or
    /// fails: at the end of the text, or if `depth` is the most that the reading allows.
    #[inline(always)]
    pub(crate) fn open_container(&mut self, kind: ContainerKind, depth: usize) -> Result<bool>
        requires room { depth ≤ self.old.reading.depth }
        requires opening { next_byte self.old ≡ opener kind }
        ensures reading { self.new.reading ≡ self.old.reading }
        ensures memory { result ≢ Err Stop.Memory }
        ensures filled { IfOk result (λ is_empty. is_empty ≡ false →
            (depth < self.old.reading.depth)
            × (next_byte self.new ≢ closer kind)) }
        ensures outcome { (fs : Frames) → value_mark self.old.reading fs ≡ None →
            frames_depth fs ≡ depth →
            GoesOn self.old (before fs) result self.new
            (λ is_empty. if is_empty then after_value fs (empty_container kind)
            else after_opener kind fs) }
    {
        self.bump();
        let first = self.peek();
        if first == kind.closer() {
            self.bump();
            return Ok(true);
        }
        if self.index == self.source.len() {
            return Err(self.fault());
        }
        if depth == usize::from(self.reading.depth()) {
            return Err(too_deep(self.index));
        }
        Ok(false)
    }

    /// Moves past the comma or closing bracket after an element or entry that ends at `end`.
    /// Returns whether the container ends; fails if neither follows. Whitespace, rare there, is
    /// skipped only if neither is at `end`.
    #[inline(always)]
    pub(crate) fn end_item(&mut self, end: usize, kind: ContainerKind) -> Result<bool>
        requires boundary { IsCharBoundary self.old.source.now end }
        requires within { self.old.index ≤ end }
        ensures { EndsItem self.old end kind result self.new }
    {
        let mut at = end;
        let mut next = byte_at(self.source, at);
        if next != b',' && next != kind.closer() {
            at = skip_whitespace(self.source, self.reading, at);
            next = byte_at(self.source, at);
            if next != b',' && next != kind.closer() {
                return Err(fault_at(self.source, at));
            }
        }
        self.go_to(at + 1);
        Ok(next != b',')
    }

    /// Moves past the colon after the key that ends at `end`, most often right there; fails if none
    /// follows.
    #[inline(always)]
    pub(crate) fn pass_colon(&mut self, end: usize) -> Result<()>
        requires boundary { IsCharBoundary self.old.source.now end }
        requires further { self.old.index < end }
        ensures { EndsKey self.old end result self.new }
    {
        if byte_at(self.source, end) == b':' {
            self.go_to(end + 1);
            return Ok(());
        }
        self.go_to(end);
        if self.peek() != b':' {
            return Err(self.fault());
        }
        self.bump();
        Ok(())
    }
}
