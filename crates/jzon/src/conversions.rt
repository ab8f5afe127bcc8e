//! Converts types that are `IntoJson` into values and texts (docs/RULES.md, "Conversions").

ghost use Rattle.std.specs.Prelude.{◌≡◌, IfOk, IfErr, IsOk, IsOkUnless, string_bytes};
ghost use Rattle.jzon_tree.specs.IntoJson.{IsTextRefusal};
ghost use Rattle.jzon_tree.specs.Lawful.{IsValue};
ghost use Rattle.jzon_tree.specs.Styles.{compact_style, pretty_style};
ghost use Rattle.jzon_tree.specs.Text.{compact, pretty};
ghost use Rattle.jzon_tree.specs.Value.{Value};
ghost use Rattle.jzon_tree.specs.View.{view};
ghost use Rattle.jzon_tree.specs.Writing.{Writes};

use jzon_base::error::{Error, Result};
use jzon_tree::into_json::IntoJson;
use jzon_tree::value::JsonValue;
use std::alloc::Global;

/// The JSON value that `value` converts into: a number, a string, a `bool`, an option, a vector, a
/// map, or a type of your own that is `IntoJson`. Fails with `OutOfMemory` only, and never if
/// `T::is_free` holds, as for integers and booleans.
///
/// ```rust
/// *data.at_mut(alloc, "count")? = jzon::from(alloc, 1u8)?;
/// ```
pub fn from<T: IntoJson>(alloc: Global, value: T) -> Result<JsonValue>
    ensures meant { IfOk result (λ v. T.means value (view v)) }
    ensures memory { IsOkUnless result Error.OutOfMemory }
    ensures free { T.is_free value → IsOk result }
{
    value.into_json(alloc)
}

/// The text, without whitespace, of the value that `root` converts into. Fails with `OutOfMemory`,
/// or with `ExceededDepthLimit` at a nesting of 2^64 or more.
///
/// ```rust
/// let text = jzon::stringify(alloc, "text")?;   // "text", in quotes
/// ```
pub fn stringify<T: IntoJson>(alloc: Global, root: T) -> Result<String>
    ensures text { IfOk result (λ text. (v : Value) × T.means root v × IsValue v
        × (string_bytes text ≡ compact v)
        × Writes compact_style 0 v (string_bytes text)) }
    ensures refusal { IfErr result (IsTextRefusal (T.means root)) }
{
    root.into_json(alloc)?.dump(alloc)
}

/// The text of the value that `root` converts into, with a line for each element or entry and
/// `spaces` spaces for each container around it. Fails with `OutOfMemory`, or with
/// `ExceededDepthLimit` at a nesting of 2^64 or more.
pub fn stringify_pretty<T: IntoJson>(alloc: Global, root: T, spaces: u16) -> Result<String>
    ensures text { IfOk result
        (λ text. (v : Value) × T.means root v × IsValue v × (string_bytes text ≡ pretty v spaces 0)
        × Writes (pretty_style spaces) 0 v (string_bytes text)) }
    ensures refusal { IfErr result (IsTextRefusal (T.means root)) }
{
    root.into_json(alloc)?.pretty(alloc, spaces)
}
