//! Conversions into values (docs/RULES.md, "Conversions").

ghost use Rattle.std.specs.Prelude.{◌≡◌, ◌≤◌, ⊤, IfOk, IsOk, IsOkUnless, length};
ghost use Rattle.jzon_tree.specs.Value.{Value, kind_of, text};
ghost use Rattle.jzon_tree.specs.View.{view};

mod containers;

use crate::from::Direct;
use crate::value::JsonValue;
use jzon_base::error::{Error, Result};
use jzon_base::short::{MAX_LEN, Short};
use std::alloc::Global;

/// Types that convert into a value. For proofs an `impl` may say by `means` which values a source
/// (`self`) means, of which an `Ok` is one; and by `is_free` for which sources it never fails.
///
/// Without them (`⊤` always holds, `⊥` never) it promises nothing of the value, and may fail:
///
/// ```rust
/// impl IntoJson for Server {
///     fn into_json(self, alloc: Global) -> Result<JsonValue> {
///         let mut value = JsonValue::new_object(alloc);
///         value.insert(alloc, "host", self.host)?;
///         value.insert(alloc, "port", self.port)?;
///         value.insert(alloc, "tags", self.tags)?;
///         Ok(value)
///     }
/// }
/// ```
pub trait IntoJson: Drop {
    ghost means: { Self → Value → Type 0 } = { λ _ _. ⊤ };

    ghost is_free: { Self → Type 0 } = { λ _. ⊥ };

    /// Converts into a value. Fails with `OutOfMemory` only, and never if `is_free` holds.
    fn into_json(self, alloc: Global) -> Result<JsonValue>
        ensures meant { IfOk result (λ v. means self (view v)) }
        ensures memory { IsOkUnless result Error.OutOfMemory }
        ensures free { is_free self → IsOk result };
}

impl IntoJson for JsonValue {
    ghost means = { λ v w. w ≡ view v };

    ghost is_free = { λ _. ⊤ };

    fn into_json(self, _alloc: Global) -> Result<JsonValue> {
        Ok(self)
    }
}

/// The types of `Direct`: integers, `bool`, `Number`, `String` and `Object`. No allocation.
impl<T: Direct> IntoJson for T {
    ghost means = { λ x v. v ≡ T.value x };

    ghost is_free = { λ _. ⊤ };

    fn into_json(self, _alloc: Global) -> Result<JsonValue> {
        Ok(self.into_value())
    }
}

/// A string of at most `short::MAX_LEN` (30) bytes is stored inline, without an allocation. A longer
/// one is copied to a `String`.
impl IntoJson for &str {
    ghost means = { λ s v. v ≡ text (kind_of s.now) s.now };

    ghost is_free = { λ s. length s.now ≤ 30 };

    fn into_json(self, alloc: Global) -> Result<JsonValue> {
        if self.len() <= MAX_LEN {
            Ok(JsonValue::Short(Short::from_slice(self)))
        } else {
            Ok(JsonValue::String(String::from_str(alloc, self)?))
        }
    }
}
