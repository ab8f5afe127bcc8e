//! Copies of values and of objects: `clone(alloc)`, and std's `Clone`, which passes no allocator,
//! for `derive(Clone)` and for `clone` of lists.
#![tactic(auto, using(crate::proofs::Values::Views::views))]

ghost use Rattle.std.specs.Prelude.{◌≡◌, map, IfOk, IsOkUnless};
ghost use Rattle.jzon_tree.specs.View.{view, view_object};

use crate::object::Object;
use crate::value::JsonValue;
use jzon_base::error::{Error, Result};
use std::alloc::{AllocError, Global};

impl JsonValue {
    /// A copy of the value, also of how its numbers and strings are stored and its keys are ordered.
    /// Fails with `OutOfMemory` only.
    // Inlined, because a call would clear and move one result more.
    #[inline(always)]
    pub fn clone(&self, alloc: Global) -> Result<JsonValue>
        ensures copy { IfOk result (λ copy. view copy ≡ view self.now) }
        ensures memory { IsOkUnless result Error.OutOfMemory }
    {
        match self {
            JsonValue::Null => Ok(JsonValue::Null),
            JsonValue::Short(text) => Ok(JsonValue::Short(text.copy_fields())),
            JsonValue::String(text) => Ok(JsonValue::String(text.clone()?)),
            JsonValue::Number(number) => Ok(JsonValue::Number(*number)),
            JsonValue::Boolean(truth) => Ok(JsonValue::Boolean(*truth)),
            JsonValue::Object(object) => Ok(JsonValue::Object(object.copy(alloc)?)),
            JsonValue::Array(items) => Ok(JsonValue::Array(copy_items(alloc, items)?)),
        }
    }
}

impl Object {
    /// A copy of the object. Fails with `OutOfMemory` only.
    pub fn clone(&self, alloc: Global) -> Result<Object>
        ensures copy { IfOk result (λ copy. view_object copy ≡ view_object self.now) }
        ensures memory { IsOkUnless result Error.OutOfMemory }
    {
        Ok(self.copy(alloc)?)
    }

    /// A copy of the object. `AllocError` has no bytes, so that less of the result is cleared. Not
    /// inlined into `copy_items`, whose stack frame is smaller without it.
    #[inline(never)]
    #[cycle(copy)]
    fn copy(&self, alloc: Global) -> std::result::Result<Object, AllocError>
        ensures { IfOk result (λ copy. view_object copy ≡ view_object self.now) }
    {
        let values = copy_items(alloc, self.pairs.values())?;
        let pairs = self.pairs.with_values(alloc, values)?;
        Ok(Object { pairs })
    }
}

/// Copies of the values, in order, each made in place, because the result of `clone` would be moved.
/// Not inlined, so that its stack frame stays small.
#[inline(never)]
#[cycle(copy)]
fn copy_items(alloc: Global, items: &[JsonValue]) -> std::result::Result<Vec<JsonValue>, AllocError>
    ensures { IfOk result (λ copies. map view copies.items ≡ map view items.now) }
{
    let mut copies = Vec::with_capacity(alloc, items.len())?;
    for item in items {
        match item {
            JsonValue::Null => copies.push_reserved(JsonValue::Null),
            JsonValue::Short(text) => copies.push_reserved(JsonValue::Short(text.copy_fields())),
            JsonValue::Number(number) => {
                copies.push_reserved(JsonValue::Number(number.copy_fields()))
            }
            JsonValue::Boolean(truth) => copies.push_reserved(JsonValue::Boolean(*truth)),
            JsonValue::String(text) => copies.push_reserved(JsonValue::String(text.clone()?)),
            JsonValue::Object(object) => {
                copies.push_reserved(JsonValue::Object(object.copy(alloc)?))
            }
            JsonValue::Array(items) => {
                copies.push_reserved(JsonValue::Array(copy_items(alloc, items)?))
            }
        }
    }
    Ok(copies)
}

/// A copy made with the allocator of the container or string.
impl Clone for JsonValue {
    ghost is_clone = { λ v w. view w ≡ view v };

    fn clone(&self) -> std::result::Result<JsonValue, AllocError> {
        match self {
            JsonValue::Null => Ok(JsonValue::Null),
            JsonValue::Short(text) => Ok(JsonValue::Short(text.copy_fields())),
            JsonValue::String(text) => Ok(JsonValue::String(text.clone()?)),
            JsonValue::Number(number) => Ok(JsonValue::Number(*number)),
            JsonValue::Boolean(boolean) => Ok(JsonValue::Boolean(*boolean)),
            JsonValue::Object(object) => Ok(JsonValue::Object(Clone::clone(object)?)),
            JsonValue::Array(items) => Ok(JsonValue::Array(copy_items(*items.allocator(), items)?)),
        }
    }
}

/// A copy made with the allocator of the object.
impl Clone for Object {
    ghost is_clone = { λ o p. view_object p ≡ view_object o };

    fn clone(&self) -> std::result::Result<Object, AllocError> {
        self.copy(self.pairs.allocator())
    }
}
