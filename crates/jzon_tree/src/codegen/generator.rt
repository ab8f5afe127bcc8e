//! The trait `Generator`. Its methods are *hooks*, which count their errors as *faults*; its
//! *style* tests a text's whitespace, colons and orders. In clauses `Emits (Just bytes)` says that
//! a hook added these bytes, or failed after a prefix and counted a fault. A hook `try_x` is `x`,
//! but stores its error in a slot (`error_slot`).

ghost use Rattle.std.specs.Prelude.{◌≡◌, ◌+◌, ◌-◌, ◌<◌, ◌≤◌, ◌^◌, ◌∷◌, ◌++◌, [], length, take, drop, MatchResult, OnErr, IsSome};
ghost use Rattle.std.specs.Borrow.{sem, Lends};
ghost use Rattle.jzon_base.specs.NumberText.{written_text};
ghost use Rattle.jzon_base.specs.PairList.{keys_of};
ghost use Rattle.jzon_tree.specs.Entries.{entries_of};
ghost use Rattle.jzon_tree.specs.Generator.{Emitted, Added, Failed, Emits, Counts, Just, IsForm, IsPrintedKey, IsAnswer, noted};
ghost use Rattle.jzon_tree.specs.Text.{escaped, quoted};
ghost use Rattle.jzon_tree.specs.Writing.{IsAllowedWhitespace, IsStyle};

use crate::codegen::error_slot::{ErrorSlot, SlotResult, send, store, take_result};
use crate::codegen::strings::{ESCAPE_MAX_LEN, put_escape};
use crate::object::Object;
use jzon_base::number::Number;
use jzon_base::util::plain::plain_len;
use jzon_base::util::print_dec::number_text;
use std::io::{self, ErrorKind, Write};

/// Writes values, piece by piece: `write_json` and `write_object` call its hooks.
///
/// For another number of spaces or order of entries, a `Layout` is enough. Write a generator for
/// other whitespace, or a writer in a type of your own. This one begins lines with tabs:
///
/// ```rust
/// fn write_min(&mut self, slice: &[u8], _min: u8) -> io::Result<()> {
///     self.write(slice)
/// }
///
/// fn new_line(&mut self) -> io::Result<()> {
///     let tabs = self.dent.min(64) as usize;
///     self.write(&LINE[..=tabs])
/// }
/// ```
///
/// The hooks are called for:
///
/// - `order`: an object, before anything of it is written
/// - `write`: `null`, `true`, `false`, `[]` and `{}`
/// - `write_string`, `write_number`: a string or a key; a number
/// - `write_min`: the colon after a key
/// - `write_char`: each comma, and the brackets of a container that isn't empty
/// - `new_line`: the whitespace before an element, an entry and such a closing bracket
/// - `indent`, `dedent`: after such an opening bracket, and before the `new_line` of the closing one
///
/// docs/GENERATORS.md, "Hooks", says what each must do, and what an `Err` means.
pub trait Generator {
    /// The writer.
    type T: Write;

    // The bytes, open indents, faults, style, and the reference written through.
    ghost meaning: { Self → Emitted };

    // The generator with this writer instead of its own.
    ghost with_writer: { Self → Self.T → Self };

    /// Lends the writer, whose bytes are the generator's. Faults don't change.
    fn get_writer(&mut self) -> &mut Self::T
        ensures* writes_back { sem 𝓛 (Lends Self.row Self.T.row self.entry result
            (with_writer self.old)) }
        ensures bytes { Self.T.contents result.now ≡ (meaning self.old).out };

    /// Adds `slice` if the style allows a space after a colon, or `min` if it allows a bare colon.
    /// The crate passes `": "` and `':'`.
    fn write_min(&mut self, slice: &[u8], min: u8) -> io::Result<()>
        ensures { Emits (IsForm (meaning self.old).style slice.now min)
            (meaning self.old) (meaning self.new) result };

    /// How many errors were counted.
    fn faults(&self) -> u64
        ensures { result ≡ (meaning self.now).faults };

    /// How many indents are open: one for each non-empty container being written.
    fn dent(&self) -> u64
        ensures { result ≡ (meaning self.now).dent };

    /// Counts one more fault, saturating at `u64::MAX`.
    fn note_fault(&mut self)
        ensures { meaning self.new
            ≡ record (meaning self.old) { faults = noted (meaning self.old).faults } };

    /// Sets the number of open indents.
    fn set_dent(&mut self, dent: u64)
        ensures { meaning self.new ≡ record (meaning self.old) { dent = dent } };

    /// Returns `answer`, a writer's result, and counts a fault if it is an error.
    #[inline]
    fn hand_on(&mut self, answer: io::Result<()>) -> io::Result<()>
        ensures result { result ≡ answer }
        ensures faults { Counts answer (meaning self.old) (meaning self.new) }
    {
        if answer.is_err() {
            self.note_fault();
        }
        answer
    }

    /// Adds the bytes.
    fn write(&mut self, slice: &[u8]) -> io::Result<()>
        ensures { Emits (Just slice.now) (meaning self.old) (meaning self.new) result }
    {
        let mut slot = None;
        let step = send(self.get_writer(), slice, &mut slot);
        self.hand_on(take_result(step, slot))
    }

    /// Adds the byte.
    fn write_char(&mut self, ch: u8) -> io::Result<()>
        ensures { Emits (Just (ch ∷ [])) (meaning self.old) (meaning self.new) result }
    {
        let mut slot = None;
        let step = send(self.get_writer(), &[ch], &mut slot);
        self.hand_on(take_result(step, slot))
    }

    /// Adds whitespace that the style allows for the open indents.
    fn new_line(&mut self) -> io::Result<()>
        ensures { Emits (IsAllowedWhitespace (meaning self.old).style (meaning self.old).dent)
            (meaning self.old) (meaning self.new) result };

    /// Opens an indent. Fails only if `u64::MAX` of them are open, and then counts a fault.
    fn indent(&mut self) -> io::Result<()>
        ensures { MatchResult result
            (λ _. meaning self.new
            ≡ record (meaning self.old) { dent = (meaning self.old).dent + 1 })
            (λ _. ((meaning self.old).dent ≡ 2 ^ 64 - 1)
            × (meaning self.new
            ≡ record (meaning self.old) { faults = noted (meaning self.old).faults })) }
    {
        let dent = self.dent();
        if dent == u64::MAX {
            self.note_fault();
            return Err(io::Error::from(ErrorKind::Other));
        }
        self.set_dent(dent + 1);
        Ok(())
    }

    /// Closes an indent.
    fn dedent(&mut self)
        requires { 0 < (meaning self.old).dent }
        ensures { meaning self.new
            ≡ record (meaning self.old) { dent = (meaning self.old).dent - 1 } }
    {
        let dent = self.dent();
        self.set_dent(dent - 1);
    }

    /// Adds the string in quotes, escaped, by `write` and `write_char`.
    fn write_string(&mut self, string: &str) -> io::Result<()>
        ensures { Emits (Just (quoted string.now)) (meaning self.old) (meaning self.new) result }
    {
        self.write_char(b'"')?;
        self.write_string_complex(string, plain_len(string.as_bytes()))
    }

    /// Ends a string after its opening quote: adds the bytes before `start` as they are, the others
    /// escaped, and the closing quote.
    fn write_string_complex(&mut self, string: &str, start: usize) -> io::Result<()>
        requires { start ≤ length string.now }
        ensures { Emits (Just (take start string.now
            ++ (escaped (drop start string.now) ++ 34 ∷ [])))
            (meaning self.old) (meaning self.new) result }
    {
        let (prefix, text) = string.as_bytes().split_at(start);
        let mut slot = None;
        let step = self.try_write_escaped(prefix, text, &mut slot);
        take_result(step, slot)
    }

    /// Adds the text of the number, or `null` for NaN, by `write`.
    fn write_number(&mut self, num: &Number) -> io::Result<()>
        ensures { Emits (Just (written_text num.now)) (meaning self.old) (meaning self.new) result }
    {
        if num.is_nan() {
            return self.write(b"null");
        }
        let (positive, mantissa, exponent) = num.as_parts();
        let text = number_text(positive, mantissa, exponent);
        self.write(text.as_str().as_bytes())
    }

    /// The order in which the object's entries are written, as their positions, each once; `None`
    /// is that of insertion. Adds no byte. An `Err` counts a fault.
    fn order(&mut self, object: &Object) -> io::Result<Option<Vec<usize>>>
        ensures { MatchResult result
            (λ answer. Added (Just []) (meaning self.old) (meaning self.new)
            × IsAnswer (meaning self.old).style (keys_of (entries_of object.now)) answer)
            (λ _. Failed (Just []) (meaning self.old) (meaning self.new)) };

    /// No `try_..` is for overriding in other crates: the slot's types are private.
    #[doc(hidden)]
    fn try_write(&mut self, slice: &[u8], slot: &mut ErrorSlot) -> SlotResult<()>
        ensures bytes { Emits (Just slice.now) (meaning self.old) (meaning self.new) result }
        ensures slot { OnErr result (IsSome slot.new) }
    {
        store(self.write(slice), slot)
    }

    #[doc(hidden)]
    fn try_write_char(&mut self, ch: u8, slot: &mut ErrorSlot) -> SlotResult<()>
        ensures bytes { Emits (Just (ch ∷ [])) (meaning self.old) (meaning self.new) result }
        ensures slot { OnErr result (IsSome slot.new) }
    {
        store(self.write_char(ch), slot)
    }

    #[doc(hidden)]
    fn try_write_string(&mut self, string: &str, slot: &mut ErrorSlot) -> SlotResult<()>
        ensures bytes { Emits (Just (quoted string.now)) (meaning self.old) (meaning self.new) result }
        ensures slot { OnErr result (IsSome slot.new) }
    {
        store(self.write_string(string), slot)
    }

    /// Adds the prefix as it is, the text escaped, and the closing quote. The prefix begins with
    /// the opening quote, unless this is written already. Runs that need no escape are written whole.
    #[doc(hidden)]
    #[inline(never)]
    fn try_write_escaped(
        &mut self,
        prefix: &[u8],
        text: &[u8],
        slot: &mut ErrorSlot,
    ) -> SlotResult<()>
        ensures bytes { Emits (Just (prefix.now ++ (escaped text.now ++ 34 ∷ [])))
            (meaning self.old) (meaning self.new) result }
        ensures slot { OnErr result (IsSome slot.new) }
    {
        self.try_write(prefix, slot)?;
        let mut rest = text;
        loop {
            let (run, others) = rest.split_at(plain_len(rest));
            self.try_write(run, slot)?;
            let Some((byte, others)) = others.split_first() else {
                break;
            };
            let mut room = [0; ESCAPE_MAX_LEN];
            let at = put_escape(&mut room, *byte);
            self.try_write(&room[at..], slot)?;
            rest = others;
        }
        self.try_write_char(b'"', slot)
    }

    /// Adds a key and its colon; a generator into memory adds both at once.
    #[doc(hidden)]
    fn try_write_key(&mut self, key: &str, slot: &mut ErrorSlot) -> SlotResult<()>
        ensures bytes { Emits (IsPrintedKey (meaning self.old).style key.now) (meaning self.old)
            (meaning self.new) result }
        ensures slot { OnErr result (IsSome slot.new) }
    {
        self.try_write_string(key, slot)?;
        store(self.write_min(b": ", b':'), slot)
    }

    #[doc(hidden)]
    fn try_write_number(&mut self, num: &Number, slot: &mut ErrorSlot) -> SlotResult<()>
        ensures bytes { Emits (Just (written_text num.now)) (meaning self.old) (meaning self.new) result }
        ensures slot { OnErr result (IsSome slot.new) }
    {
        store(self.write_number(num), slot)
    }

    #[doc(hidden)]
    fn try_new_line(&mut self, slot: &mut ErrorSlot) -> SlotResult<()>
        ensures bytes { Emits (IsAllowedWhitespace (meaning self.old).style (meaning self.old).dent)
            (meaning self.old) (meaning self.new) result }
        ensures slot { OnErr result (IsSome slot.new) }
    {
        store(self.new_line(), slot)
    }

    // Another writer changes the bytes alone.
    ghost writer_law: { (g : Self) (w : Self.T)
        → meaning (with_writer g w) ≡ record (meaning g) { out = Self.T.contents w } };

    ghost style_law: { (g : Self) → IsStyle (meaning g).style };
}
