//! The crate's generators, which write a text in a layout. What the destination doesn't `put` goes
//! to its writer. In clauses `text_meaning` is a generator's state, `fresh` one without open
//! indents or *faults* (counted errors); `Emits (Just bytes)` says that these bytes were added, or
//! after an error, counted as a fault, a prefix. A hook `try_..` stores its error in `slot`
//! (`error_slot`).

ghost use Rattle.std.specs.Prelude.{◌≡◌, [], Ok, None, Some, IsSome, IsTrue, IsUtf8, IfErr, IfOk, MatchResult, OnErr, string_bytes};
ghost use Rattle.std.specs.IoError.{error_kind};
ghost use Rattle.jzon_base.specs.NumberText.{written_text};
ghost use Rattle.jzon_base.specs.PairList.{keys_of};
ghost use Rattle.jzon_tree.specs.Entries.{entries_of};
ghost use Rattle.jzon_tree.specs.Generator.{Added, Failed, Counts, Emits, Just, IsAnswer};
ghost use Rattle.jzon_tree.specs.Generators.{text_meaning, with_writer_in, same_emitted, fresh, IsConsumed};
ghost use Rattle.jzon_tree.specs.Styles.{compact_style, pretty_style};

use crate::codegen::destination::{Destination, Memory};
use crate::codegen::error_slot::{ErrorSlot, SlotResult, send, take_result};
use crate::codegen::generator::Generator;
use crate::codegen::layout::{Compact, Layout, Pretty, send_line};
use crate::codegen::pieces::{Line, Quoted, QuotedKey};
use crate::object::Object;
use jzon_base::error::{Error, Result};
use jzon_base::number::Number;
use jzon_base::util::print_dec::number_text;
use std::alloc::{AllocError, Global};
use std::io::{self, ErrorKind, Write};

/// The first capacity of a text in memory, in bytes: a small text needs one allocation.
const FIRST_ROOM: usize = 1024;

/// Writes text in a layout, to memory (`in_memory`; `consume` returns it) or a writer
/// (`to_writer`). `dent` is the number of open indents, and `faults` that of errors.
#[derive(Debug, Drop)]
pub struct TextGenerator<P: Destination, L: Layout> {
    pub(crate) destination: P,
    layout: L,
    dent: u64,
    faults: u64,
}

impl<P: Destination, L: Layout> TextGenerator<P, L> {
    /// A generator of this layout that adds to the destination.
    #[inline(always)]
    pub(crate) fn over(destination: P, layout: L) -> TextGenerator<P, L>
        ensures { ⟦<TextGenerator<P, L> as Generator>⟧.meaning result
            ≡ fresh (P.out destination) (L.style layout) (P.lender destination) }
    {
        TextGenerator {
            destination,
            layout,
            dent: 0,
            faults: 0,
        }
    }

    /// Returns `step`, and counts a fault if it is an error.
    #[inline(always)]
    fn count_fault(&mut self, step: SlotResult<()>) -> SlotResult<()>
        ensures result { result ≡ step }
        ensures faults { Counts step (text_meaning P.out P.lender L.style self.old)
            (text_meaning P.out P.lender L.style self.new) }
    {
        if step.is_err() {
            self.note_fault();
        }
        step
    }

    /// Writes a number whose exponent isn't 0. Apart, so that `try_write_number` saves no registers
    /// for an integer.
    #[inline(never)]
    fn write_decimal(&mut self, num: &Number, slot: &mut ErrorSlot) -> SlotResult<()>
        ensures bytes { Emits (Just (written_text num.now))
            (text_meaning P.out P.lender L.style self.old)
            (text_meaning P.out P.lender L.style self.new) result }
        ensures slot { OnErr result (IsSome slot.new) }
    {
        if self.destination.put(*num) {
            return Ok(());
        }
        self.write_number_text(num, slot)
    }

    /// Writes a number that `put` didn't add, such as 0. Apart, so that `try_write_number` saves no
    /// registers for other integers.
    #[inline(never)]
    fn write_number_text(&mut self, num: &Number, slot: &mut ErrorSlot) -> SlotResult<()>
        ensures bytes { Emits (Just (written_text num.now))
            (text_meaning P.out P.lender L.style self.old)
            (text_meaning P.out P.lender L.style self.new) result }
        ensures slot { OnErr result (IsSome slot.new) }
    {
        if num.is_nan() {
            return self.try_write(b"null", slot);
        }
        let (positive, mantissa, exponent) = num.as_parts();
        let text = number_text(positive, mantissa, exponent);
        self.try_write(text.as_str().as_bytes(), slot)
    }
}

impl<P: Destination, L: Layout> Generator for TextGenerator<P, L> {
    type T = P::T;

    ghost meaning = { text_meaning P.out P.lender L.style };

    ghost with_writer = { with_writer_in P.with_writer };

    fn get_writer(&mut self) -> &mut P::T {
        self.destination.writer()
    }

    fn write_min(&mut self, slice: &[u8], min: u8) -> io::Result<()> {
        let mut slot = None;
        // `slice` is a colon and a space, for layouts with lines, and `min` a colon.
        let step = if self.layout.spaces().is_some() {
            self.try_write(slice, &mut slot)
        } else {
            self.try_write_char(min, &mut slot)
        };
        take_result(step, slot)
    }

    fn write_string(&mut self, string: &str) -> io::Result<()> {
        let mut slot = None;
        let step = self.try_write_string(string, &mut slot);
        take_result(step, slot)
    }

    fn write_number(&mut self, num: &Number) -> io::Result<()> {
        let mut slot = None;
        let step = self.try_write_number(num, &mut slot);
        take_result(step, slot)
    }

    fn faults(&self) -> u64 {
        self.faults
    }

    fn dent(&self) -> u64 {
        self.dent
    }

    fn note_fault(&mut self) {
        self.faults = self.faults.saturating_add(1);
    }

    fn set_dent(&mut self, dent: u64) {
        self.dent = dent;
    }

    fn new_line(&mut self) -> io::Result<()> {
        let mut slot = None;
        let step = self.try_new_line(&mut slot);
        take_result(step, slot)
    }

    /// The layout's `order`. An error is counted, and is of the kind `OutOfMemory`.
    #[inline(always)]
    fn order(&mut self, object: &Object) -> io::Result<Option<Vec<usize>>>
        ensures answer { MatchResult result
            (λ answer. Added (Just []) (text_meaning P.out P.lender L.style self.old)
            (text_meaning P.out P.lender L.style self.new)
            × IsAnswer (L.style self.old.layout) (keys_of (entries_of object.now)) answer)
            (λ _. Failed (Just []) (text_meaning P.out P.lender L.style self.old)
            (text_meaning P.out P.lender L.style self.new)) }
        ensures insertion { IsTrue (L.keeps_order self.old.layout) → (result ≡ Ok None)
            × (self.new ≡ self.old) }
        ensures memory { IfErr result (λ error. error_kind error ≡ ErrorKind.OutOfMemory) }
    {
        match self.layout.order(object) {
            Ok(answer) => Ok(answer),
            Err(_) => {
                self.note_fault();
                Err(io::Error::from(ErrorKind::OutOfMemory))
            }
        }
    }

    #[inline(always)]
    fn try_write(&mut self, slice: &[u8], slot: &mut ErrorSlot) -> SlotResult<()> {
        let step = send(self.destination.writer(), slice, slot);
        self.count_fault(step)
    }

    #[inline(always)]
    fn try_write_char(&mut self, ch: u8, slot: &mut ErrorSlot) -> SlotResult<()> {
        if self.destination.put(ch) {
            return Ok(());
        }
        self.try_write(&[ch], slot)
    }

    #[inline(always)]
    fn try_write_string(&mut self, string: &str, slot: &mut ErrorSlot) -> SlotResult<()> {
        if self.destination.put(Quoted(string.as_bytes())) {
            return Ok(());
        }
        self.try_write_escaped(b"\"", string.as_bytes(), slot)
    }

    fn try_write_key(&mut self, key: &str, slot: &mut ErrorSlot) -> SlotResult<()> {
        // Whether a space follows the colon.
        let wide = self.layout.spaces().is_some();
        if self.destination.put(QuotedKey(key.as_bytes(), wide)) {
            return Ok(());
        }
        self.try_write_string(key, slot)?;
        self.try_write(&b": "[..1 + usize::from(wide)], slot)
    }

    fn try_write_number(&mut self, num: &Number, slot: &mut ErrorSlot) -> SlotResult<()> {
        // Part 2 is the exponent.
        if num.as_parts().2 != 0 {
            return self.write_decimal(num, slot);
        }
        if self.destination.put(*num) {
            return Ok(());
        }
        self.write_number_text(num, slot)
    }

    #[inline(always)]
    fn try_new_line(&mut self, slot: &mut ErrorSlot) -> SlotResult<()> {
        let Some(spaces) = self.layout.spaces() else {
            return Ok(());
        };
        let spaces = self.dent as u128 * spaces as u128;
        if self.destination.put(Line(spaces)) {
            return Ok(());
        }
        let step = send_line(self.destination.writer(), spaces, slot);
        self.count_fault(step)
    }

    ghost writer_law = { λ g w. same_emitted (P.out_law g.destination w) (P.lender_law g.destination w) };

    ghost style_law = { λ g. L.style_law g.layout };
}

/// Writes compact text into memory.
pub type DumpGenerator = TextGenerator<Memory, Compact>;

/// Writes text in the layout `Pretty` into memory.
pub type PrettyGenerator = TextGenerator<Memory, Pretty>;

impl DumpGenerator {
    /// A generator that has written nothing. It allocates nothing.
    pub fn new(alloc: Global) -> DumpGenerator
        ensures { ⟦<DumpGenerator as Generator>⟧.meaning result
            ≡ fresh (Some []) compact_style None }
    {
        TextGenerator::in_memory(alloc, Compact)
    }
}

impl PrettyGenerator {
    /// A generator that has written nothing, with `spaces` spaces for each open indent. It
    /// allocates nothing.
    pub fn new(alloc: Global, spaces: u16) -> PrettyGenerator
        ensures { ⟦<PrettyGenerator as Generator>⟧.meaning result
            ≡ fresh (Some []) (pretty_style spaces) None }
    {
        TextGenerator::in_memory(alloc, Pretty(spaces))
    }
}

impl<L: Layout> TextGenerator<Memory, L> {
    /// A generator of this layout that has written nothing. It allocates nothing.
    pub fn in_memory(alloc: Global, layout: L) -> TextGenerator<Memory, L>
        ensures { ⟦<TextGenerator<Memory, L> as Generator>⟧.meaning result
            ≡ fresh (Some []) (L.style layout) None }
    {
        let bytes = Vec::new(alloc);
        TextGenerator::over(Memory { bytes }, layout)
    }
}

impl<L: Layout + Drop> TextGenerator<Memory, L> {
    /// A generator that has written nothing, with a capacity of `FIRST_ROOM` (1,024) bytes.
    pub(crate) fn with_room(
        alloc: Global,
        layout: L,
    ) -> std::result::Result<TextGenerator<Memory, L>, AllocError>
        ensures { IfOk result (λ g. ⟦<TextGenerator<Memory, L> as Generator>⟧.meaning g
            ≡ fresh (Some []) (L.style layout) None) }
    {
        let bytes = Vec::with_capacity(alloc, FIRST_ROOM)?;
        Ok(TextGenerator::over(Memory { bytes }, layout))
    }

    /// The bytes written, as a string. It allocates nothing, and fails with `FailedUtf8Parsing`
    /// exactly if they aren't UTF-8.
    pub fn consume(self) -> Result<String>
        ensures { IsConsumed (⟦<TextGenerator<Memory, L> as Generator>⟧.meaning self).out result }
    {
        String::from_utf8(self.destination.bytes).map_err(|_| Error::FailedUtf8Parsing)
    }

    /// The bytes written, as a string, without a test that they are UTF-8.
    pub(crate) fn into_text(self) -> String
        requires { IsUtf8 self.destination.bytes.items }
        ensures { string_bytes result ≡ self.destination.bytes.items }
    {
        unsafe { String::from_utf8_unchecked(self.destination.bytes) }
    }
}

/// Writes compact text to a writer. Nothing is buffered: each bracket, string and number is a call
/// of `Write::write`, or several.
pub type WriterGenerator<'a, W> = TextGenerator<&'a mut W, Compact>;

/// Writes text in the layout `Pretty` to a writer, unbuffered like `WriterGenerator`.
pub type PrettyWriterGenerator<'a, W> = TextGenerator<&'a mut W, Pretty>;

impl<'a, W: Write> WriterGenerator<'a, W> {
    /// A generator that appends to the writer.
    pub fn new(writer: &'a mut W) -> WriterGenerator<'a, W>
        ensures { ⟦<WriterGenerator<'a, W> as Generator>⟧.meaning result
            ≡ fresh (W.contents writer.old) compact_style (Some writer.entry.ghost_name) }
    {
        TextGenerator::to_writer(writer, Compact)
    }
}

impl<'a, W: Write> PrettyWriterGenerator<'a, W> {
    /// A generator that appends to the writer, with `spaces` spaces for each open indent.
    pub fn new(writer: &'a mut W, spaces: u16) -> PrettyWriterGenerator<'a, W>
        ensures { ⟦<PrettyWriterGenerator<'a, W> as Generator>⟧.meaning result
            ≡ fresh (W.contents writer.old) (pretty_style spaces) (Some writer.entry.ghost_name) }
    {
        TextGenerator::to_writer(writer, Pretty(spaces))
    }
}

impl<'a, W: Write, L: Layout> TextGenerator<&'a mut W, L> {
    /// A generator of this layout that appends to the writer.
    pub fn to_writer(writer: &'a mut W, layout: L) -> TextGenerator<&'a mut W, L>
        ensures { ⟦<TextGenerator<&'a mut W, L> as Generator>⟧.meaning result
            ≡ fresh (W.contents writer.old) (L.style layout) (Some writer.entry.ghost_name) }
    {
        TextGenerator::over(writer, layout)
    }
}
