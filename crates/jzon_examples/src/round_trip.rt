//! Round trip: what is printed is read again.
//!
//! `IsReadable usual v` says that `parse` can read what is printed of `v`: it holds no NaN and
//! nests at most 512 deep. Each value that `parse` returns is so. For a value built by calls these
//! two are enough: the call that prints it ensures the other premises of the laws.

ghost use Rattle.std.specs.Prelude.{◌≡◌, ◌≤◌, IfOk, IsOkUnless, IsTrue, string_bytes};
ghost use Rattle.jzon.specs.Answer.{IsReadable};
ghost use Rattle.jzon.specs.Lawful.{HasNoNan};
ghost use Rattle.jzon.specs.Reading.{usual};
ghost use Rattle.jzon.specs.Same.{same};
ghost use Rattle.jzon.specs.Text.{compact};
ghost use Rattle.jzon.specs.Value.{nest};
ghost use Rattle.jzon.specs.View.{view};

use jzon::{Error, JsonValue, Result};
use std::alloc::Global;

/// Prints the value and reads the text: an equal value, or `OutOfMemory`.
pub fn reread(alloc: Global, value: &JsonValue) -> Result<JsonValue>
    requires { IsReadable usual (view value.now) }
    ensures equal { IfOk result (λ again. IsTrue (same (view again) (view value.now))) }
    ensures memory { IsOkUnless result Error.OutOfMemory }
{
    let text = value.dump(alloc)?;
    jzon::parse(alloc, text.as_str())
}

/// Prints any value that was built, with `spaces` spaces for each open container, and reads the
/// text: an equal value, or `OutOfMemory`.
pub fn reread_lines(alloc: Global, value: &JsonValue, spaces: u16) -> Result<JsonValue>
    requires nan { HasNoNan (view value.now) }
    requires depth { nest (view value.now) ≤ 512 }
    ensures equal { IfOk result (λ again. IsTrue (same (view again) (view value.now))) }
    ensures memory { IsOkUnless result Error.OutOfMemory }
{
    let text = value.pretty(alloc, spaces)?;
    jzon::parse(alloc, text.as_str())
}

/// Dumps what is read of the dump of any value that was built, NaN or not: the same bytes, or
/// `OutOfMemory`.
pub fn redump(alloc: Global, value: &JsonValue) -> Result<String>
    requires depth { nest (view value.now) ≤ 512 }
    ensures text { IfOk result (λ text. string_bytes text ≡ compact (view value.now)) }
    ensures memory { IsOkUnless result Error.OutOfMemory }
{
    let text = value.dump(alloc)?;
    let again = jzon::parse(alloc, text.as_str())?;
    again.dump(alloc)
}
