//! The texts of objects (docs/RULES.md, "Layouts").

ghost use Rattle.std.specs.Prelude.{◌≡◌, ◌<◌, ◌≤◌, ◌^◌, IfOk, IsOkUnless, string_bytes};
ghost use Rattle.jzon_tree.specs.Lawful.{IsValue};
ghost use Rattle.jzon_tree.specs.Styles.{compact_style, pretty_style};
ghost use Rattle.jzon_tree.specs.Text.{compact, pretty};
ghost use Rattle.jzon_tree.specs.Value.{nest};
ghost use Rattle.jzon_tree.specs.View.{view_object};
ghost use Rattle.jzon_tree.specs.Writing.{Writes};

use crate::codegen::driver::write_pairs;
use crate::codegen::{Compact, Layout, Pretty, TextGenerator};
use crate::object::Object;
use crate::value::inspect::inspect_object;
use jzon_base::error::{Error, Result};
use std::alloc::Global;

impl Object {
    /// The compact text of the object. Fails with `OutOfMemory`, and with
    /// `ExceededDepthLimit` if non-empty containers nest 2^64 deep or deeper.
    pub fn dump(&self, alloc: Global) -> Result<String>
        ensures text { IfOk result (λ text. string_bytes text ≡ compact (view_object self.now)) }
        ensures writing { IfOk result (λ text. Writes compact_style 0 (view_object self.now)
            (string_bytes text)) }
        ensures value { IsValue (view_object self.now) }
        ensures memory { nest (view_object self.now) < 2 ^ 64
            → IsOkUnless result Error.OutOfMemory }
        ensures depth { 2 ^ 64 ≤ nest (view_object self.now)
            → IsOkUnless result Error.ExceededDepthLimit }
    {
        self.lay_out(alloc, Compact)
    }

    /// The text of the object with a line for each entry and element, indented by `spaces` spaces
    /// for each container around it. Fails as `dump`.
    pub fn pretty(&self, alloc: Global, spaces: u16) -> Result<String>
        ensures text { IfOk result (λ text. string_bytes text
            ≡ pretty (view_object self.now) spaces 0) }
        ensures writing { IfOk result
            (λ text. Writes (pretty_style spaces) 0 (view_object self.now) (string_bytes text)) }
        ensures value { IsValue (view_object self.now) }
        ensures memory { nest (view_object self.now) < 2 ^ 64
            → IsOkUnless result Error.OutOfMemory }
        ensures depth { 2 ^ 64 ≤ nest (view_object self.now)
            → IsOkUnless result Error.ExceededDepthLimit }
    {
        self.lay_out(alloc, Pretty(spaces))
    }

    /// The text of the object in a layout. Fails as `dump`.
    fn lay_out<L: Layout + Drop>(&self, alloc: Global, layout: L) -> Result<String>
        ensures writing { IfOk result (λ text. Writes (L.style layout) 0 (view_object self.now)
            (string_bytes text)) }
        ensures value { IsValue (view_object self.now) }
        ensures memory { nest (view_object self.now) < 2 ^ 64
            → IsOkUnless result Error.OutOfMemory }
        ensures depth { 2 ^ 64 ≤ nest (view_object self.now)
            → IsOkUnless result Error.ExceededDepthLimit }
    {
        if let Ok(mut generator) = TextGenerator::with_room(alloc, layout)
            && let Ok(()) = write_pairs(&mut generator, self, &mut None)
        {
            return Ok(generator.into_text());
        }
        // `&mut None` takes the error, which isn't needed: the object's depth says which it is.
        Err(inspect_object(self).printing_error())
    }
}
