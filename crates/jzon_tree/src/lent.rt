//! Mutable references to the parts of a value (docs/RULES.md, "Readers" and "Changers"). The clause
//! `writes_back` says what the value is after a write of `w` through the reference. The checker
//! proves this only if the reference is of another type than the receiver (docs/TOOLCHAIN.md, "A
//! `&mut T` out of a `T`"). So `get_mut`, `at_mut` and `at_index_mut` have their bodies in the trait
//! `Tree`, and a caller whose proof needs the write calls `write_present`, `write_at` or
//! `write_at_index`.
//!
//! In clauses `items_with_place` are the elements once there is one for the index, and `place_made`
//! is the position of that one.

ghost use Rattle.std.specs.Prelude.{◌≡◌, ◌≤◌, [], length, slice_get, slice_set, IfOk, OnErr, IfSome, IsOkUnless, None, Some, unwrap_or};
ghost use Rattle.std.specs.Borrow.{sem, LendsIf, LendsIfOk, LendsSoOk};
ghost use Rattle.std.specs.Option.{option_copied_mut, option_map};
ghost use Rattle.std.specs.Slice.Iter.{iter_mut_rest as items_left};
ghost use Rattle.jzon_base.specs.IterMut.{iter_mut_rest};
ghost use Rattle.jzon_base.specs.PairList.{find, put, with_default};
ghost use Rattle.jzon_tree.specs.Entries.{with_entries};
ghost use Rattle.jzon_tree.specs.Lent.{object_in, entries_in, items_in, items_with_place, place_made};
ghost use Rattle.jzon_tree.specs.LentTypes.{vec_row};
ghost use Rattle.jzon_tree.specs.View.{view};
ghost use Rattle.jzon_tree.specs.declared.value.JsonValue.{Object as object_value, Array as array_value};
ghost use Rattle.jzon_tree.specs.contracts.object.Object.{the_row as object_row};

mod tree;
mod writes;

use crate::object::{self, Object};
use crate::value::JsonValue;
use jzon_base::error::{Error, Result};
use std::alloc::Global;
use std::slice;
use tree::Tree;
pub use writes::{write_at, write_at_index, write_present};

/// Double-ended iterator over mutable references to elements.
pub type MembersMut<'a> = slice::IterMut<'a, JsonValue>;

/// Double-ended iterator over entries, each as its key's text and a mutable reference to its value.
pub type EntriesMut<'a> = object::IterMut<'a>;

impl JsonValue {
    ghost use Rattle.jzon_tree.specs.contracts.value.JsonValue.{the_row};

    /// A mutable reference to the object, else `None`.
    pub fn as_object_mut(&mut self) -> Option<&mut Object>
        ensures* writes_back { sem 𝓛 (LendsIf the_row object_row self.entry result object_value
            self.old) }
        ensures value { option_copied_mut result ≡ object_in self.old }
    {
        match self {
            JsonValue::Object(object) => Some(object),
            _ => None,
        }
    }

    /// A mutable reference to the elements of an array, else `None`.
    pub fn as_array_mut(&mut self) -> Option<&mut Vec<JsonValue>>
        ensures* writes_back { sem 𝓛 (LendsIf the_row
            (vec_row the_row) self.entry result array_value self.old) }
        ensures value { option_map (λ items. items.now.items) result ≡ items_in self.old }
    {
        match self {
            JsonValue::Array(items) => Some(items),
            _ => None,
        }
    }

    /// Iterates over the elements of an array in order, else over nothing.
    ///
    /// ```rust
    /// for element in list.members_mut() {
    ///     if element.is_null() {
    ///         *element = JsonValue::from(0u8);
    ///     }
    /// }
    /// ```
    pub fn members_mut(&mut self) -> MembersMut<'_>
        ensures { items_left result ≡ unwrap_or (items_in self.old) [] }
    {
        match self {
            JsonValue::Array(items) => items.iter_mut(),
            _ => [].iter_mut(),
        }
    }

    /// Iterates over the entries of an object in order, else over nothing.
    pub fn entries_mut(&mut self) -> EntriesMut<'_>
        ensures { iter_mut_rest result ≡ entries_in self.old }
    {
        if let JsonValue::Object(object) = self {
            return object.iter_mut();
        }
        EntriesMut::empty()
    }

    /// A mutable reference to the value of an object's key. `None` if the key is missing, and for
    /// any other value.
    ///
    /// ```rust
    /// if let Some(found) = data.get_mut("name") {
    ///     *found = name;
    /// }
    /// ```
    pub fn get_mut(&mut self, key: &str) -> Option<&mut JsonValue>
        ensures* writes_back { sem 𝓛 (LendsIf the_row the_row self.entry result
            (λ w. object_value (with_entries (put key.now w (entries_in self.old)))) self.old) }
        ensures value { option_copied_mut result ≡ find key.now (entries_in self.old) }
    {
        self.get_in(key)
    }

    /// A mutable reference to the value of an object's key. A value that isn't an object first
    /// becomes an empty one, and a missing key is put last, with null. Fails with `OutOfMemory`
    /// only, and then nothing has changed; a present key needs no allocation.
    ///
    /// ```rust
    /// *data.at_mut(alloc, "count")? = jzon::from(alloc, 1u8)?;
    /// data.at_mut(alloc, "list")?.push(alloc, "last")?;
    /// ```
    pub fn at_mut(&mut self, alloc: Global, key: &str) -> Result<&mut JsonValue>
        ensures* writes_back { sem 𝓛 (LendsIfOk the_row the_row self.entry result
            (λ w. object_value (with_entries (put key.now w (entries_in self.old)))) self.old) }
        ensures value { IfOk result (λ place. Some place.now ≡
            find key.now (with_default key.now JsonValue.Null (entries_in self.old))) }
        ensures present { OnErr result (find key.now (entries_in self.old) ≡ None) }
        ensures memory { IsOkUnless result Error.OutOfMemory }
    {
        self.at_in(alloc, key)
    }

    /// A mutable reference to the element of an array at an index. For any index past the end, the
    /// array first gains one null. A value that isn't an array first becomes `[null]` for index 0 and
    /// `[null,null]` for any other. The reference is then to the last null. Fails with `OutOfMemory`
    /// only, and then the value means what it meant; an index in range needs no allocation.
    pub fn at_index_mut(&mut self, alloc: Global, index: usize) -> Result<&mut JsonValue>
        ensures* writes_back { sem 𝓛 (LendsSoOk the_row the_row self.entry result
            (λ n w. items_in n ≡ Some (slice_set (items_with_place self.old index)
            (place_made self.old index) w))
            (λ n. view n ≡ view self.old)) }
        ensures value { IfOk result (λ place.
            slice_get (items_with_place self.old index) (place_made self.old index)
            ≡ Some place.now) }
        ensures present { OnErr result (IfSome (items_in self.old)
            (λ items. length items ≤ index)) }
        ensures memory { IsOkUnless result Error.OutOfMemory }
    {
        self.at_index_in(alloc, index)
    }
}
