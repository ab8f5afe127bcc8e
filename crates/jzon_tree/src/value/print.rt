//! The texts of values (docs/RULES.md, "Layouts"). In clauses `view` is the value without its
//! memory; `Writes style 0` holds of its texts in the style, where 0 indents are open before. All
//! ensure `IsValue`, for the laws on reading back.

ghost use Rattle.std.specs.Prelude.{◌≡◌, ◌<◌, ◌≤◌, ◌^◌, OnOk, OnErr, IfOk, IsOkUnless, string_bytes};
ghost use Rattle.std.specs.Io.KnownBytes.{Appends};
ghost use Rattle.jzon_base.specs.PartialWrites.{AppendsBeginning};
ghost use Rattle.jzon_tree.specs.Private.Buffered.{known_len};
ghost use Rattle.jzon_tree.specs.Generator.{Sends};
ghost use Rattle.jzon_tree.specs.Lawful.{IsValue};
ghost use Rattle.jzon_tree.specs.Styles.{compact_style, pretty_style};
ghost use Rattle.jzon_tree.specs.Text.{compact, pretty};
ghost use Rattle.jzon_tree.specs.Value.{nest};
ghost use Rattle.jzon_tree.specs.View.{view};
ghost use Rattle.jzon_tree.specs.Writing.{Writes};

use crate::codegen::buffered::{Buffered, Start};
use crate::codegen::destination::{Outlet, Through};
use crate::codegen::driver::write_value;
use crate::codegen::{Compact, Layout, Pretty, TextGenerator, write_json};
use crate::value::JsonValue;
use crate::value::inspect::inspect;
use jzon_base::error::{Error, Result};
use std::alloc::Global;
use std::io::{self, Write};
use std::marker::Brand;

impl JsonValue {
    /// The compact text of the value, with no whitespace outside of its strings. Fails with
    /// `OutOfMemory`, and with `ExceededDepthLimit` if non-empty containers nest 2^64 deep or
    /// deeper.
    ///
    /// ```rust
    /// let value = jzon::parse(alloc, "[1, -12.50e3, {\"a\": null}]")?;
    /// let text = value.dump(alloc)?;   // [1,-12500,{"a":null}]
    /// ```
    pub fn dump(&self, alloc: Global) -> Result<String>
        ensures text { IfOk result (λ text. string_bytes text ≡ compact (view self.now)) }
        ensures writing { IfOk result (λ text. Writes compact_style 0 (view self.now)
            (string_bytes text)) }
        ensures value { IsValue (view self.now) }
        ensures memory { nest (view self.now) < 2 ^ 64 → IsOkUnless result Error.OutOfMemory }
        ensures depth { 2 ^ 64 ≤ nest (view self.now) → IsOkUnless result Error.ExceededDepthLimit }
    {
        self.lay_out(alloc, Compact)
    }

    /// The text of the value with a line for each element and entry: a newline, and `spaces` spaces
    /// for each container around it, before each element, each key and each closing bracket of a
    /// container that is not empty; a space follows each colon. Fails as `dump`.
    pub fn pretty(&self, alloc: Global, spaces: u16) -> Result<String>
        ensures text { IfOk result (λ text. string_bytes text ≡ pretty (view self.now) spaces 0) }
        ensures writing { IfOk result (λ text. Writes (pretty_style spaces) 0 (view self.now)
            (string_bytes text)) }
        ensures value { IsValue (view self.now) }
        ensures memory { nest (view self.now) < 2 ^ 64 → IsOkUnless result Error.OutOfMemory }
        ensures depth { 2 ^ 64 ≤ nest (view self.now) → IsOkUnless result Error.ExceededDepthLimit }
    {
        self.lay_out(alloc, Pretty(spaces))
    }

    /// The text of the value in a layout, also the caller's. Fails as `dump`, and with `OutOfMemory`
    /// if the layout's `order` fails.
    ///
    /// ```rust
    /// value.lay_out(alloc, Sorted { alloc })   // `Sorted` is the example of `codegen::Layout`
    /// ```
    pub fn lay_out<L: Layout + Drop>(&self, alloc: Global, layout: L) -> Result<String>
        ensures writing { IfOk result (λ text. Writes (L.style layout) 0 (view self.now)
            (string_bytes text)) }
        ensures value { IsValue (view self.now) }
        ensures memory { nest (view self.now) < 2 ^ 64 → IsOkUnless result Error.OutOfMemory }
        ensures depth { 2 ^ 64 ≤ nest (view self.now) → IsOkUnless result Error.ExceededDepthLimit }
    {
        if let Ok(mut generator) = TextGenerator::with_room(alloc, layout)
            && let Ok(()) = write_value(&mut generator, self, &mut None)
        {
            return Ok(generator.into_text());
        }
        // `&mut None` takes the error, which isn't needed: the value's depth says if it was that or an
        // allocation.
        Err(inspect(self).printing_error())
    }

    /// Writes the compact text of the value. An error is the writer's, or reports that 2^64 indents
    /// would be open; a prefix of the text is then written. Only the writer may allocate.
    ///
    /// The text is collected in 1,024 bytes on the stack, so a file needs no `BufWriter` for one
    /// value; a longer string goes to the writer at once. No newline is added, and `flush` isn't
    /// called.
    pub fn write<W: Write>(&self, writer: &mut W) -> io::Result<()>
        ensures ok { OnOk result (Appends (W.contents writer.old) (W.contents writer.new)
            (compact (view self.now))) }
        ensures err { OnErr result
            (AppendsBeginning (W.contents writer.old) (W.contents writer.new)
            (compact (view self.now))) }
        ensures value { IsValue (view self.now) }
    {
        write_in::<W, Compact, Brand>(self, writer, Compact)
    }

    /// Writes the text that `pretty` returns. It is collected, and fails, as `write` does.
    ///
    /// ```rust
    /// let mut buffered = BufWriter::new(alloc, writer)?;
    /// value.write_pretty(&mut buffered, 2)?;
    /// buffered.write_all(b"\n")?;
    /// buffered.flush()
    /// ```
    pub fn write_pretty<W: Write>(&self, writer: &mut W, spaces: u16) -> io::Result<()>
        ensures ok { OnOk result
            (Appends (W.contents writer.old) (W.contents writer.new)
            (pretty (view self.now) spaces 0)) }
        ensures err { OnErr result
            (AppendsBeginning (W.contents writer.old) (W.contents writer.new)
            (pretty (view self.now) spaces 0)) }
        ensures value { IsValue (view self.now) }
    {
        write_in::<W, Pretty, Brand>(self, writer, Pretty(spaces))
    }

    /// Writes the text that `lay_out` returns, collected as by `write`. An error is the writer's,
    /// or reports that `order` failed or that 2^64 indents would be open; a prefix of the text is
    /// then written: all that is before, if `order` failed. Only the layout and the writer may
    /// allocate.
    pub fn write_layout<W: Write, L: Layout + Drop>(
        &self,
        writer: &mut W,
        layout: L,
    ) -> io::Result<()>
        ensures writing { Sends (Writes (L.style layout) 0 (view self.now))
            (W.contents writer.old) (W.contents writer.new) result }
        ensures value { IsValue (view self.now) }
    {
        write_in::<W, L, Brand>(self, writer, layout)
    }
}

/// Writes the text of the value through a buffer on the stack. `S.start`, for the proof, is how
/// many bytes the writer has before.
fn write_in<W: Write, L: Layout + Drop, S: Start>(
    json: &JsonValue,
    writer: &mut W,
    layout: L,
) -> io::Result<()>
    requires start { S.start ≡ known_len (W.contents writer.old) }
    ensures writing { Sends (Writes (L.style layout) 0 (view json.now))
        (W.contents writer.old) (W.contents writer.new) result }
    ensures value { IsValue (view json.now) }
{
    let mut buffered: Buffered<'_, W, S> = Buffered::new(writer);
    let answer = write_outlet(json, &mut buffered, layout);
    let answer = buffered.finish(answer);
    let inner = buffered.inner;
    // The proof learns here what the writer holds.
    let _ = &*inner;
    answer
}

/// Writes the text of the value to `outlet`, a `Buffered`. Apart and over `Outlet`, which hides the
/// ghost field of `Buffered` from the borrow checker.
#[inline(always)]
fn write_outlet<W: Outlet, L: Layout + Drop>(
    json: &JsonValue,
    outlet: &mut W,
    layout: L,
) -> io::Result<()>
    ensures writing { Sends (Writes (L.style layout) 0 (view json.now))
        (W.Write.contents outlet.old) (W.Write.contents outlet.new) result }
    ensures value { IsValue (view json.now) }
{
    let mut generator = TextGenerator::over(Through { outlet }, layout);
    let answer = write_json(&mut generator, json);
    let Through { outlet } = generator.destination;
    // The proof learns here what the outlet holds.
    let _ = &*outlet;
    answer
}
