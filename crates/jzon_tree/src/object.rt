//! Objects, stored as `Pairs`. `?` turns the `AllocError` of `Pairs` and `Key` into `OutOfMemory`.
//!
//! In clauses `entries_of` are the keys and values in order; `find` looks a key up, `put` and
//! `put_each` put entries, and `cut` removes one. `writes_back` says what the object is after a
//! write of `w` through the reference.

ghost use Rattle.std.specs.Prelude.{◌≡◌, ◌-◌, ◌==◌, List, [], length, OnOk, OnErr, IfOk, IsOkUnless, None, IfSome, Some, is_some};
ghost use Rattle.std.specs.Option.{option_copied, option_copied_mut};
ghost use Rattle.std.specs.Iterator.{Drains, IsFinite, YieldsFirstBy, YieldsLastBy, item_count, at_most, UpTo};
ghost use Rattle.std.specs.Iterator.SizeHint.{IsWithinCount};
ghost use Rattle.std.specs.List.{zip, IsDistinct};
ghost use Rattle.std.specs.Map.Calls.{CalledAtPair, CallableOnEachPair, RetainsPairs, TakesPair};
ghost use Rattle.std.specs.Slice.Iter.{iter_rest};
ghost use Rattle.std.specs.Str.{bytes_eq};
ghost use Rattle.std.specs.Vec.Iter.{into_iter_items};
ghost use Rattle.jzon_base.specs.IterMut.{iter_mut_rest};
ghost use Rattle.jzon_base.specs.Private.KnownKeys.{Knows};
ghost use Rattle.jzon_base.specs.PairList.{find, put, put_each, cut, set_value, with_default, keys_of, values_of};
ghost use Rattle.jzon_tree.specs.IntoJson.{PutMeans};
ghost use Rattle.jzon_tree.specs.Entries.{entries_of};
ghost use Rattle.jzon_tree.specs.View.{view_object};

mod by_index;
mod print;

use crate::into_json::IntoJson;
use crate::value::JsonValue;
use jzon_base::error::{Error, Result};
pub use jzon_base::key::Key;
use jzon_base::keys::{self, KnownKeys};
use jzon_base::pairs::{self, Pairs};
use std::alloc::{AllocError, Global};
use std::convert::AsStr;
use std::iter::FusedIterator;
use std::{slice, vec};

/// The most entries for which `from_pairs` allocates ahead: an iterator may expect far more than
/// there are distinct keys.
const ROOM_MAX: usize = 256;

/// Double-ended iterator over entries, each as its key's text and its value.
pub type Iter<'a> = pairs::Iter<'a, JsonValue>;

/// As `Iter`, with a mutable reference to each value.
pub type IterMut<'a> = pairs::IterMut<'a, JsonValue>;

/// Double-ended iterator over the texts of keys.
pub type Keys<'a> = keys::Iter<'a>;

/// Double-ended iterator over values.
pub type Values<'a> = slice::Iter<'a, JsonValue>;

/// Double-ended iterator that owns the keys and values that are left.
#[derive(Drop)]
pub struct IntoIter {
    keys: vec::IntoIter<Key>,
    values: vec::IntoIter<JsonValue>,
    // As many values are left as keys, so `next` never takes a key without a value.
    ghost as_many: { length (into_iter_items values) ≡ length (into_iter_items keys) },
}

/// A JSON object (RFC 8259, section 4): entries, each a key and a value, in the order in which
/// their keys were first put. Keys are distinct, compared by their bytes.
#[cycle(json)]
#[derive(Debug)]
pub struct Object {
    pub(crate) pairs: Pairs<JsonValue>,
}

impl Object {
    ghost use Rattle.std.specs.Borrow.{sem, LendsIf, LendsIfOk};
    ghost use Rattle.jzon_tree.specs.contracts.object.Object.{the_row};
    ghost use Rattle.jzon_tree.specs.contracts.value.JsonValue.{the_row as value_row};
    ghost use Rattle.jzon_tree.specs.Entries.{with_entries};

    /// An object without entries. It allocates nothing.
    pub fn new(alloc: Global) -> Object
        ensures { entries_of result ≡ [] }
    {
        let pairs = Pairs::new(alloc);
        Object { pairs }
    }

    /// An object without entries, with room for about `capacity` of them; how much isn't promised.
    /// Fails with `OutOfMemory` only.
    pub fn with_capacity(alloc: Global, capacity: usize) -> Result<Object>
        ensures empty { IfOk result (λ object. entries_of object ≡ []) }
        ensures memory { IsOkUnless result Error.OutOfMemory }
    {
        let pairs = Pairs::with_capacity(alloc, capacity)?;
        Ok(Object { pairs })
    }

    /// The object of these pairs, put one after the other: a later pair of a key replaces that
    /// key's value at its position. The iterator must accept calls of `next` (the clause `can`),
    /// and end. Fails with `OutOfMemory` only.
    ///
    /// ```rust
    /// let object = Object::from_pairs(alloc, pairs.into_iter())?;
    /// ```
    pub fn from_pairs<K: AsStr + Drop, V: IntoJson, I: Iterator<Item = (K, V)> + Drop>(
        alloc: Global,
        pairs: I,
    ) -> Result<Object>
        requires can { I.can_next pairs }
        requires ends { IsFinite (I.remaining pairs) }
        ensures pairs { IfOk result (λ object. (ps : List (K × V)) × Drains I.next_gives pairs ps
            × PutMeans K.text V.means ps (view_object object)) }
        ensures memory { IsOkUnless result Error.OutOfMemory }
    {
        let (least, _) = pairs.size_hint();
        let mut keys = Vec::with_capacity(alloc, least.min(ROOM_MAX))?;
        let mut values = Vec::with_capacity(alloc, least.min(ROOM_MAX))?;
        for (key, value) in pairs {
            let key = Key::new(alloc, key.as_str())?;
            keys.push(key)?;
            values.push(value.into_json(alloc)?)?;
        }
        Ok(Object::from_entries(alloc, keys, values)?)
    }

    /// The object of keys and as many values, where a later value replaces that of an equal key.
    /// Public only for the parser and `jzon_serde`. Inlined, because each small object of a text is
    /// made here.
    #[doc(hidden)]
    #[inline(always)]
    pub fn from_entries(
        alloc: Global,
        keys: Vec<Key>,
        values: Vec<JsonValue>,
    ) -> std::result::Result<Object, AllocError>
        requires even { length values.items ≡ length keys.items }
        ensures pairs { IfOk result (λ object. entries_of object
            ≡ put_each (zip keys.items values.items)) }
    {
        let pairs = Pairs::from_entries(alloc, keys, values)?;
        Ok(Object { pairs })
    }

    /// The object of distinct keys and as many values. `known` has the keys' index, if there is one.
    #[doc(hidden)]
    pub fn from_known(
        alloc: Global,
        keys: Vec<Key>,
        known: KnownKeys,
        values: Vec<JsonValue>,
    ) -> std::result::Result<Object, AllocError>
        requires even { length values.items ≡ length keys.items }
        requires known { Knows keys.items known }
        ensures pairs { IfOk result (λ object. entries_of object
            ≡ put_each (zip keys.items values.items)) }
    {
        let pairs = Pairs::from_known(alloc, keys, known, values)?;
        Ok(Object { pairs })
    }

    /// The allocator that the object was made with.
    pub fn allocator(&self) -> Global {
        self.pairs.allocator()
    }

    /// The number of entries.
    pub fn len(&self) -> usize
        ensures len { result ≡ length (entries_of self.now) }
        ensures distinct { IsDistinct bytes_eq (keys_of (entries_of self.now)) }
    {
        self.pairs.len()
    }

    /// Whether there is no entry.
    pub fn is_empty(&self) -> bool
        ensures { result ≡ (length (entries_of self.now) == 0) }
    {
        self.pairs.is_empty()
    }

    /// The value of the key. `None` if the key is missing.
    pub fn get(&self, key: &str) -> Option<&JsonValue>
        ensures { option_copied result ≡ find key.now (entries_of self.now) }
    {
        self.pairs.get(key)
    }

    /// A mutable reference to the value of the key. `None` if the key is missing.
    pub fn get_mut(&mut self, key: &str) -> Option<&mut JsonValue>
        ensures* writes_back { sem 𝓛 (LendsIf the_row value_row self.entry result
            (λ w. with_entries (put key.now w (entries_of self.old))) self.old) }
        ensures value { option_copied_mut result ≡ find key.now (entries_of self.old) }
    {
        self.pairs.get_mut(key)
    }

    /// A mutable reference to the value of the key. A missing key is first put last, with null.
    /// Fails with `OutOfMemory` only, and then nothing has changed; a present key needs no
    /// allocation.
    pub fn at_mut(&mut self, alloc: Global, key: &str) -> Result<&mut JsonValue>
        ensures* writes_back { sem 𝓛 (LendsIfOk the_row value_row self.entry result
            (λ w. with_entries (put key.now w (entries_of self.old))) self.old) }
        ensures value { IfOk result (λ place. Some place.now ≡
            find key.now (with_default key.now JsonValue.Null (entries_of self.old))) }
        ensures present { OnErr result (find key.now (entries_of self.old) ≡ None) }
        ensures memory { IsOkUnless result Error.OutOfMemory }
    {
        Ok(self.pairs.at_mut(alloc, key, JsonValue::Null)?)
    }

    /// Puts the value under the key: at the key's position if it is present, which needs no
    /// allocation, else last. Fails with `OutOfMemory` only; then the object is as it was, and
    /// `value` is dropped.
    ///
    /// `n` calls with new keys take a time of about n (log n)^2 at most, and `from_pairs` less
    /// (measured, not proved: docs/MEASURED.md).
    pub fn insert(&mut self, alloc: Global, key: &str, value: JsonValue) -> Result<()>
        ensures ok { OnOk result (entries_of self.new ≡ put key.now value (entries_of self.old)) }
        ensures err { OnErr result (self.new ≡ self.old) }
        ensures present { OnErr result (find key.now (entries_of self.old) ≡ None) }
        ensures memory { IsOkUnless result Error.OutOfMemory }
    {
        self.pairs.insert(alloc, key, value)?;
        Ok(())
    }

    /// Replaces the value of the last entry; an object without entries stays as it is. No key is
    /// looked up, so this serves a caller that puts a key first and gets its value later.
    pub fn override_last(&mut self, value: JsonValue)
        ensures { entries_of self.new ≡
            set_value (entries_of self.old) (length (entries_of self.old) - 1) value }
    {
        self.pairs.override_last(value);
    }

    /// Removes the entry of the key and returns its value. `None` if the key is missing. It
    /// allocates nothing.
    ///
    /// Later entries move up, in order, so the time grows with the number of entries (measured, not
    /// proved: docs/MEASURED.md).
    pub fn remove(&mut self, key: &str) -> Option<JsonValue>
        ensures value { result ≡ find key.now (entries_of self.old) }
        ensures after { entries_of self.new ≡ cut key.now (entries_of self.old) }
    {
        self.pairs.remove(key)
    }

    /// Keeps the entries for which `keep(key, value)` returns `true`, in order. `keep` is called
    /// once for each entry, in order, and may change the value. It must accept every entry, as a
    /// closure without a `requires` does. It allocates nothing.
    ///
    /// ```rust
    /// object.retain(|_key, value| !value.is_null());
    /// ```
    pub fn retain<F: FnMut(&str, &mut JsonValue) -> bool>(&mut self, keep: F)
        requires { CallableOnEachPair (CalledAtPair F.FnMut) (TakesPair F.FnMut) keep
            (entries_of self.old) }
        ensures { RetainsPairs (CalledAtPair F.FnMut) keep (entries_of self.old)
            (entries_of self.new) }
    {
        self.pairs.retain(keep);
    }

    /// Removes all entries.
    pub fn clear(&mut self)
        ensures { entries_of self.new ≡ [] }
    {
        self.pairs.clear();
    }

    /// Whether the key is present.
    pub fn contains_key(&self, key: &str) -> bool
        ensures { result ≡ is_some (find key.now (entries_of self.now)) }
    {
        self.get(key).is_some()
    }

    /// Iterates over the keys in order.
    pub fn keys(&self) -> Keys<'_>
        ensures { result ≡ keys_of (entries_of self.now) }
    {
        self.pairs.keys()
    }

    /// Iterates over the values in the order of the entries.
    pub fn values(&self) -> Values<'_>
        ensures { iter_rest result ≡ values_of (entries_of self.now) }
    {
        self.pairs.values().iter()
    }

    /// Iterates over the entries in order.
    pub fn iter(&self) -> Iter<'_>
        ensures { result ≡ entries_of self.now }
    {
        self.pairs.iter()
    }

    /// Iterates over the entries in order, with mutable references to their values.
    pub fn iter_mut(&mut self) -> IterMut<'_>
        ensures { iter_mut_rest result ≡ entries_of self.old }
    {
        self.pairs.iter_mut()
    }
}

/// Drops the values in a loop, because the drop that the compiler writes would call a function for
/// each value, even if it owns nothing.
impl Drop for Object {
    #[cycle(json)]
    fn drop(self) {
        let Object { pairs } = self;
        let (keys, values) = pairs.into_parts();
        drop(keys);
        drop_values(values);
    }
}

/// Drops the elements of an array. Not inlined into the loop that calls it, so that an object without
/// entries needs no call.
#[inline(never)]
#[cycle(json)]
fn drop_items(items: Vec<JsonValue>) {
    drop_values(items);
}

/// Drops values, the last one first, without a call for those that own nothing.
#[inline(always)]
#[cycle(json)]
fn drop_values(mut values: Vec<JsonValue>) {
    while let Some(value) = values.pop() {
        match value {
            JsonValue::Null | JsonValue::Short(_) | JsonValue::Number(_) | JsonValue::Boolean(_) =>
                {}
            JsonValue::String(text) => drop(text),
            JsonValue::Object(object) => drop(object),
            JsonValue::Array(items) => drop_items(items),
        }
    }
    // The vector is empty now: this frees its memory alone.
    values.destroy_empty();
}

/// The object of these pairs: a later pair of a key replaces that key's value at its position. Fails
/// with `AllocError`.
impl<K: AsStr + Drop, V: IntoJson> FromIterator<(K, V)> for Object {
    type Alloc = Global;

    ghost from_iter_gives = { λ ps o. PutMeans K.text V.means ps (view_object o) };

    fn from_iter<U: IntoIterator<Item = (K, V)>>(
        alloc: Global,
        pairs: U,
    ) -> std::result::Result<Object, AllocError> {
        Object::from_pairs(alloc, pairs.into_iter()).map_err(|_| AllocError)
    }
}

/// Iterates as `iter` does.
impl<'a> IntoIterator for &'a Object {
    type Item = (&'a str, &'a JsonValue);

    type IntoIter = Iter<'a>;

    ghost into_iter_gives = { λ object it. it ≡ entries_of object.now };

    fn into_iter(self) -> Iter<'a> {
        self.iter()
    }
}

/// Iterates as `iter_mut` does.
impl<'a> IntoIterator for &'a mut Object {
    type Item = (&'a str, &'a mut JsonValue);

    type IntoIter = IterMut<'a>;

    ghost into_iter_gives = { λ object it. iter_mut_rest it ≡ entries_of object.now };

    fn into_iter(self) -> IterMut<'a> {
        self.iter_mut()
    }
}

impl Iterator for IntoIter {
    ghost use Rattle.jzon_tree.specs.IntoIter.{entries_left};

    type Item = (Key, JsonValue);

    ghost next_gives = { YieldsFirstBy (λ x. x) entries_left };

    ghost remaining = { item_count entries_left };

    fn next(&mut self) -> Option<(Key, JsonValue)> {
        Some((self.keys.next()?, self.values.next()?))
    }

    fn size_hint(&self) -> (usize, Option<usize>)
        ensures lower { IsWithinCount result.0 (at_most (length (entries_left self.now))) }
        ensures upper { IfSome result.1 (UpTo (at_most (length (entries_left self.now)))) }
        ensures exact { result
            ≡ (length (entries_left self.now), Some (length (entries_left self.now))) }
    {
        let len = self.len();
        (len, Some(len))
    }
}

impl DoubleEndedIterator for IntoIter {
    ghost use Rattle.jzon_tree.specs.IntoIter.{entries_left};

    ghost next_back_gives = { YieldsLastBy (λ x. x) entries_left };

    fn next_back(&mut self) -> Option<(Key, JsonValue)> {
        Some((self.keys.next_back()?, self.values.next_back()?))
    }
}

impl ExactSizeIterator for IntoIter {
    fn len(&self) -> usize {
        self.keys.len()
    }
}

impl FusedIterator for IntoIter {}

/// Iterates over the entries in order, and gives away their keys and values.
impl IntoIterator for Object {
    type Item = (Key, JsonValue);

    type IntoIter = IntoIter;

    ghost use Rattle.jzon_tree.specs.IntoIter.{entries_left};

    ghost into_iter_gives = { λ object it. entries_left it ≡ entries_of object };

    fn into_iter(self) -> IntoIter {
        let Object { pairs } = self;
        let (keys, values) = pairs.into_parts();
        let keys = keys.into_vec().into_iter();
        let values = values.into_iter();
        IntoIter { keys, values }
    }
}
