//! Writing numbers, strings, lists and structs as a value or a text: the other direction of
//! `decode`.

ghost use Rattle.std.specs.Prelude.{◌≡◌, IfOk, IsOkUnless, string_bytes};
ghost use Rattle.jzon.specs.Value.{Value};
ghost use Rattle.jzon.specs.View.{view};
ghost use Rattle.jzon.specs.Text.{compact};

mod back;
mod impls;
mod members;

pub use back::{NotNull, ReadsBack, read_back};
use jzon::{Error, JsonValue, Result};
pub use members::Members;
use std::alloc::Global;

/// Types that are written as a value. An implementation may say by the relation `shows` which values
/// a source gives; one that says nothing needs no ghost line.
///
/// ```rust
/// impl ToJson for Server {
///     fn to_json(&self, alloc: Global) -> jzon::Result<JsonValue> {
///         Members::new(alloc)
///             .put("host", &self.host)?
///             .put("port", &self.port)?
///             .put("secure", &self.secure)?
///             .done()
///     }
/// }
/// ```
pub trait ToJson {
    ghost shows: { Self → Value → Type 0 } = { λ _ _. Unit {0} };

    /// The source as a value. Fails with `OutOfMemory` only.
    fn to_json(&self, alloc: Global) -> Result<JsonValue>
        ensures value { IfOk result (λ v. shows self.now (view v)) }
        ensures memory { IsOkUnless result Error.OutOfMemory };
}

/// The compact text of the source, with `null` for NaN.
///
/// ```rust
/// let written = encode::to_text(alloc, &fleet)?;
/// ```
pub fn to_text<T: ToJson>(alloc: Global, source: &T) -> Result<String>
    ensures { IfOk result (λ text. (v : Value) × T.shows source.now v
        × (string_bytes text ≡ compact v)) }
{
    source.to_json(alloc)?.dump(alloc)
}

/// The text of the source with a line for each element and entry, after `spaces` spaces for each
/// container around it.
pub fn to_text_pretty<T: ToJson>(alloc: Global, source: &T, spaces: u16) -> Result<String> {
    source.to_json(alloc)?.pretty(alloc, spaces)
}
