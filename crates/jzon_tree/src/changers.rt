//! Changes to values (docs/RULES.md, "Changers"). In clauses `view` is what a value means, whatever
//! its capacity. A call that needs another kind of value leaves it as it is. The error `WrongType`
//! names the needed kind in an allocated string, so it may be `OutOfMemory` instead.
#![tactic(auto, using(crate::proofs::Values::Views::views, crate::proofs::Values::PartViews::seen))]

ghost use Rattle.std.specs.Prelude.{◌≡◌, ◌-◌, codes, true, false, string_bytes, option_map, slice_get, remove, IfOk, IfErr, OnOk, OnErr, IsOkUnless, None};
ghost use Rattle.jzon_base.specs.PairList.{find};
ghost use Rattle.jzon_tree.specs.Changers.{is_short, without_text, without_item, with_item, without_entry, with_entry, cleared, IsRefusal};
ghost use Rattle.jzon_tree.specs.Lent.{entries_in};
ghost use Rattle.jzon_tree.specs.Readers.{is_array, is_object, text_in, items, entries, count, or_null};
ghost use Rattle.jzon_tree.specs.Value.{Value, null, array, no_values, object, no_pairs};
ghost use Rattle.jzon_tree.specs.View.{view};

use crate::into_json::IntoJson;
use crate::object::Object;
use crate::value::JsonValue;
use jzon_base::error::{Error, Result};
use jzon_base::short::Short;
use std::alloc::Global;
use std::mem;

impl JsonValue {
    /// An object without entries. It allocates nothing.
    pub fn new_object(alloc: Global) -> JsonValue
        ensures { view result ≡ object no_pairs }
    {
        JsonValue::Object(Object::new(alloc))
    }

    /// An array without elements. It allocates nothing.
    pub fn new_array(alloc: Global) -> JsonValue
        ensures { view result ≡ array no_values }
    {
        JsonValue::Array(Vec::new(alloc))
    }

    /// Returns the value and leaves null.
    pub fn take(&mut self) -> JsonValue
        ensures value { result ≡ self.old }
        ensures after { view self.new ≡ null }
    {
        mem::replace(self, JsonValue::Null)
    }

    /// Returns the string and leaves null. `None` for any other value. A string that is stored
    /// inline is copied to an allocated one: only this can fail, with `OutOfMemory`, and the value
    /// stays as it was.
    pub fn take_string(&mut self, alloc: Global) -> Result<Option<String>>
        ensures value { IfOk result (λ s. option_map string_bytes s ≡ text_in (view self.old)) }
        ensures after { OnOk result (view self.new ≡ without_text (view self.old)) }
        ensures err { OnErr result (self.new ≡ self.old) }
        ensures short { OnErr result (is_short (view self.old) ≡ true) }
        ensures memory { IsOkUnless result Error.OutOfMemory }
    {
        if let JsonValue::Short(short) = self {
            let text = String::from_str(alloc, short.as_str())?;
            *self = JsonValue::Null;
            return Ok(Some(text));
        }
        match self.take() {
            JsonValue::String(text) => Ok(Some(text)),
            other => {
                *self = other;
                Ok(None)
            }
        }
    }

    /// Appends an element to an array. Fails with `WrongType("Array")` if `self` isn't an array,
    /// and with `OutOfMemory`; then `self` means what it meant, and `value` is dropped.
    ///
    /// ```rust
    /// let mut list = JsonValue::new_array(alloc);
    /// for name in names {
    ///     list.push(alloc, *name)?;
    /// }
    /// ```
    pub fn push<T: IntoJson>(&mut self, alloc: Global, value: T) -> Result<()>
        ensures ok { OnOk result ((v : Value) × T.means value v
            × (view self.new ≡ with_item v (view self.old))) }
        ensures array { OnOk result (is_array (view self.old) ≡ true) }
        ensures err { OnErr result (view self.new ≡ view self.old) }
        ensures kept { is_array (view self.old) ≡ false → self.new ≡ self.old }
        ensures refusal { IfErr result (IsRefusal (is_array (view self.old)) (codes "Array")) }
    {
        match self {
            JsonValue::Array(items) => {
                items.push(value.into_json(alloc)?)?;
                Ok(())
            }
            _ => Err(Error::wrong_type(alloc, "Array")?),
        }
    }

    /// Removes the last element of an array and returns it. Null if the array is empty, and for any
    /// other value.
    pub fn pop(&mut self) -> JsonValue
        ensures value { view result ≡ or_null
            (slice_get (items (view self.old)) (count (view self.old) - 1)) }
        ensures after { view self.new ≡ without_item (count (view self.old) - 1) (view self.old) }
    {
        // Without elements this is 0, which is past the end.
        let last = self.len().saturating_sub(1);
        self.array_remove(last)
    }

    /// Puts the value under the key of an object: at the key's position if it is present, which
    /// needs no allocation, else last. Fails with `WrongType("Object")` if `self` isn't an object,
    /// and with `OutOfMemory`; then `self` is as it was, and `value` is dropped.
    ///
    /// ```rust
    /// data.insert(alloc, "first", first)?;
    /// ```
    pub fn insert<T: IntoJson>(&mut self, alloc: Global, key: &str, value: T) -> Result<()>
        ensures ok { OnOk result ((v : Value) × T.means value v
            × (view self.new ≡ with_entry key.now v (view self.old))) }
        ensures object { OnOk result (is_object (view self.old) ≡ true) }
        ensures err { OnErr result (self.new ≡ self.old) }
        ensures present { T.is_free value → is_object (view self.old) ≡ true
            → OnErr result (find key.now (entries_in self.old) ≡ None) }
        ensures refusal { IfErr result (IsRefusal (is_object (view self.old)) (codes "Object")) }
    {
        match self {
            JsonValue::Object(object) => object.insert(alloc, key, value.into_json(alloc)?),
            _ => Err(Error::wrong_type(alloc, "Object")?),
        }
    }

    /// Removes the entry of an object's key and returns its value. Null if the key is missing, and
    /// for any other value. Later entries move up, so the time grows with their number (measured,
    /// not proved).
    pub fn remove(&mut self, key: &str) -> JsonValue
        ensures value { view result ≡ or_null (find key.now (entries (view self.old))) }
        ensures after { view self.new ≡ without_entry key.now (view self.old) }
    {
        match self {
            JsonValue::Object(object) => object.remove(key).unwrap_or(JsonValue::Null),
            _ => JsonValue::Null,
        }
    }

    /// Removes the element at a position of an array and returns it. Null past the end, and for any
    /// other value. Later elements move up, so the time grows with their number (measured, not
    /// proved).
    pub fn array_remove(&mut self, index: usize) -> JsonValue
        ensures value { view result ≡ or_null (slice_get (items (view self.old)) index) }
        ensures after { view self.new ≡ without_item index (view self.old) }
    {
        match self {
            JsonValue::Array(items) => remove_item(items, index).unwrap_or(JsonValue::Null),
            _ => JsonValue::Null,
        }
    }

    /// Makes a string, an array or an object empty; a string stays inline or allocated, as it was. Any
    /// other value becomes null.
    pub fn clear(&mut self)
        ensures { view self.new ≡ cleared (view self.old) }
    {
        match self {
            JsonValue::Short(text) => *text = Short::from_slice(""),
            JsonValue::String(text) => text.clear(),
            JsonValue::Object(object) => object.clear(),
            JsonValue::Array(items) => items.clear(),
            other => *other = JsonValue::Null,
        }
    }
}

/// Removes the element at a position and returns it. `None` past the end.
fn remove_item(items: &mut Vec<JsonValue>, index: usize) -> Option<JsonValue>
    ensures value { result ≡ slice_get items.old.items index }
    ensures after { items.new.items ≡ remove items.old.items index }
{
    if index < items.len() {
        Some(items.remove(index))
    } else {
        None
    }
}
