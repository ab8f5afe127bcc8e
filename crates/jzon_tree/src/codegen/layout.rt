//! Layouts: the whitespace of a text, and the order of an object's entries (docs/GENERATORS.md,
//! "Custom layouts"). A writer's error is stored in `slot` (`error_slot`).

ghost use Rattle.std.specs.Prelude.{◌≡◌, ◌+◌, ◌<◌, ◌≤◌, length, take, ◌∷◌, ◌++◌, Bool, true, false, IsTrue, IfOk, Ok, None, OnErr, IsSome, replicate};
ghost use Rattle.jzon_base.specs.PairList.{keys_of};
ghost use Rattle.jzon_tree.specs.Entries.{entries_of};
ghost use Rattle.jzon_tree.specs.Generator.{IsAnswer, Sends, Just};
ghost use Rattle.jzon_tree.specs.StyleLaws.{IsStyle-compact, IsStyle-pretty};
ghost use Rattle.jzon_tree.specs.Styles.{compact_style, pretty_style, LaysOut};
ghost use Rattle.jzon_tree.specs.Writing.{Style, IsStyle};

use crate::codegen::error_slot::{ErrorSlot, SlotResult, send};
use crate::object::Object;
use std::alloc::AllocError;
use std::io::Write;

/// Spaces of a line that begins with more than 63: up to 512 are written at once.
const SPACES: [u8; 512] = [b' '; 512];

/// How many bytes are copied for a newline and up to 7 spaces.
pub(super) const LINE_ROOM: usize = 8;

/// A newline, and the 63 spaces that are written with it at most.
pub(super) const NEWLINE_AND_SPACES: [u8; 64] =
    *b"\n                                                               ";

/// How many spaces begin a text's lines, if it has lines, and the order of an object's entries.
/// `JsonValue::lay_out`, `write_layout` and `TextGenerator` take one.
///
/// Write one for another order: a style, the texts that it allows, and two methods. This one, the
/// example `sorted_layout` of `jzon_tools`, sorts by key:
///
/// ```rust
/// fn spaces(&self) -> Option<u16> {
///     None
/// }
///
/// fn order(&self, object: &Object) -> std::result::Result<Option<Vec<usize>>, AllocError> {
///     Ok(Some(sorted_positions(self.alloc, object)?))
/// }
/// ```
///
/// It is used as `value.lay_out(alloc, Sorted { alloc })`.
pub trait Layout {
    // The style of its texts.
    ghost style: { Self → Style };

    // Whether `order` always returns `None`.
    ghost keeps_order: { Self → Bool } = { λ _. false };

    /// The spaces for each open indent, if each element and entry has its own line and a space
    /// follows each colon; `None` for no whitespace.
    fn spaces(&self) -> Option<u16>
        ensures { LaysOut (style self.now) result };

    /// The order of the object's entries, as their positions, each once; `None` is that of
    /// insertion. It is asked before each object, also an empty one, is written. An `Err` ends the
    /// writing, and is reported as out of memory.
    fn order(&self, object: &Object) -> Result<Option<Vec<usize>>, AllocError>
        ensures allowed { IfOk result (IsAnswer (style self.now)
            (keys_of (entries_of object.now))) }
        ensures insertion { IsTrue (keeps_order self.now) → result ≡ Ok None };

    ghost style_law: { (l : Self) → IsStyle (style l) };
}

impl<L: Layout> Layout for &L {
    ghost style = { λ l. L.style l.now };

    ghost keeps_order = { λ l. L.keeps_order l.now };

    #[inline(always)]
    fn spaces(&self) -> Option<u16> {
        (**self).spaces()
    }

    #[inline(always)]
    fn order(&self, object: &Object) -> Result<Option<Vec<usize>>, AllocError> {
        (**self).order(object)
    }

    ghost style_law = { λ l. L.style_law l.now };
}

/// No whitespace, as `{"a":[1,2]}`, and entries in the order of insertion.
#[derive(Clone, Copy, Debug)]
pub struct Compact;

impl Layout for Compact {
    ghost style = { λ _. compact_style };

    ghost keeps_order = { λ _. true };

    #[inline(always)]
    fn spaces(&self) -> Option<u16> {
        None
    }

    #[inline(always)]
    fn order(&self, _object: &Object) -> Result<Option<Vec<usize>>, AllocError> {
        Ok(None)
    }

    ghost style_law = { λ _. IsStyle-compact };
}

/// A line for each element and entry: a newline and this number of spaces for each open indent, and
/// a space after each colon. Entries are in the order of insertion. `Pretty(2)` gives
///
/// ```text
/// {
///   "a": [
///     1
///   ]
/// }
/// ```
#[derive(Clone, Copy, Debug)]
pub struct Pretty(pub u16);

impl Layout for Pretty {
    ghost style = { λ l. pretty_style l.0 };

    ghost keeps_order = { λ _. true };

    #[inline(always)]
    fn spaces(&self) -> Option<u16> {
        Some(self.0)
    }

    #[inline(always)]
    fn order(&self, _object: &Object) -> Result<Option<Vec<usize>>, AllocError> {
        Ok(None)
    }

    ghost style_law = { λ l. IsStyle-pretty l.0 };
}

/// Writes a newline and `spaces` spaces, of which up to 63, enough for most lines, go with the
/// newline. An indent count, a `u64`, times a `u16` needs a `u128`.
#[inline(always)]
pub(super) fn send_line<W: Write>(
    writer: &mut W,
    spaces: u128,
    slot: &mut ErrorSlot,
) -> SlotResult<()>
    ensures bytes { Sends (Just (10 ∷ replicate spaces 32)) (W.contents writer.old)
        (W.contents writer.new) result }
    ensures slot { OnErr result (IsSome slot.new) }
{
    let first = spaces.min(63);
    send(writer, &NEWLINE_AND_SPACES[..=first as usize], slot)?;
    if first < spaces {
        return send_spaces(writer, spaces - first, slot);
    }
    Ok(())
}

/// Puts a newline and 7 spaces at an offset, by one copy; a caller may need fewer.
#[inline(always)]
pub(super) fn put_newline_and_spaces(room: &mut [u8], start: usize)
    requires { start + 8 ≤ length room.old }
    ensures text { take (start + 8) room.new ≡ take start room.old ++ 10 ∷ replicate 7 32 }
    ensures len { length room.new ≡ length room.old }
{
    room[start..start + LINE_ROOM].copy_from_slice(&NEWLINE_AND_SPACES[..LINE_ROOM]);
}

/// Writes the spaces, 512 at a time. Cold, because few lines begin with more than 63.
#[cold]
#[inline(never)]
fn send_spaces<W: Write>(writer: &mut W, spaces: u128, slot: &mut ErrorSlot) -> SlotResult<()>
    ensures bytes { Sends (Just (replicate spaces 32)) (W.contents writer.old)
        (W.contents writer.new) result }
    ensures slot { OnErr result (IsSome slot.new) }
{
    let mut left = spaces;
    while left > 0 {
        let count = left.min(512);
        send(writer, &SPACES[..count as usize], slot)?;
        left -= count;
    }
    Ok(())
}
