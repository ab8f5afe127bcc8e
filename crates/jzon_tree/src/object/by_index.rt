//! The entries of an object by their positions, which count from 0.
//!
//! The clause `writes_back` says that a write of `w` through the reference leaves the object with
//! `w` at this position, and that an object without the position stays as it is. `entries_of` are
//! the keys and values in order.

ghost use Rattle.std.specs.Prelude.{◌≡◌, remove, slice_get, option_map};
ghost use Rattle.std.specs.List.{position};
ghost use Rattle.std.specs.Option.{option_copied_mut};
ghost use Rattle.std.specs.Str.{bytes_eq};
ghost use Rattle.jzon_base.specs.PairList.{keys_of, set_value};

use super::{Key, Object};
use crate::value::JsonValue;

impl Object {
    ghost use Rattle.std.specs.Borrow.{sem, LendsIf};
    ghost use Rattle.jzon_tree.specs.contracts.object.Object.{the_row};
    ghost use Rattle.jzon_tree.specs.contracts.value.JsonValue.{the_row as value_row};
    ghost use Rattle.jzon_tree.specs.Entries.{entries_of, with_entries};

    /// The entry at a position: its key's text and its value. `None` past the end.
    pub fn get_index(&self, index: usize) -> Option<(&str, &JsonValue)>
        ensures { option_map (λ p. (p.0.now, p.1.now)) result
            ≡ slice_get (entries_of self.now) index }
    {
        if index < self.len() {
            Some(self.pairs.get_at(index))
        } else {
            None
        }
    }

    /// A mutable reference to the value of the entry at a position. `None` past the end.
    ///
    /// ```rust
    /// if let Some(value) = object.get_index_mut(index) {
    ///     count = count.saturating_add(redact_member(value, hides, names));
    /// }
    /// ```
    pub fn get_index_mut(&mut self, index: usize) -> Option<&mut JsonValue>
        ensures* writes_back { sem 𝓛 (LendsIf the_row value_row self.entry result
            (λ w. with_entries (set_value (entries_of self.old) index w)) self.old) }
        ensures value { option_copied_mut result ≡
            option_map (λ p. p.1) (slice_get (entries_of self.old) index) }
    {
        if index < self.len() {
            Some(self.pairs.value_mut(index))
        } else {
            None
        }
    }

    /// The position of the key's entry. `None` if the key is missing.
    pub fn get_index_of(&self, key: &str) -> Option<usize>
        ensures { result ≡ position (λ k. bytes_eq k key.now) (keys_of (entries_of self.now)) }
    {
        self.pairs.position(key)
    }

    /// Removes the entry at a position, and returns its key and its value. `None` past the end. The
    /// entries after it move up, in their order. It allocates nothing.
    pub fn shift_remove_index(&mut self, index: usize) -> Option<(Key, JsonValue)>
        ensures entry { result ≡ slice_get (entries_of self.old) index }
        ensures after { entries_of self.new ≡ remove (entries_of self.old) index }
    {
        if index < self.len() {
            Some(self.pairs.remove_at(index))
        } else {
            None
        }
    }
}
