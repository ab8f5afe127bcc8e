//! The entries of an object, in a box (docs/RULES.md, "Objects"), so that what holds `Pairs` is
//! small. A contract's `writes_back` says what they are after a write through the returned
//! reference (`jzon_tree/specs/LentTypes.antt`).
ghost use Rattle.std.specs.Prelude.{◌≡◌, ◌<◌, ◌-◌, ◌∷◌, ◌==◌, List, ℕ, [], length, remove, slice_get, Some, None, OnOk, OnErr, IfOk, MatchOption};
ghost use Rattle.std.specs.List.{position, zip, IsDistinct};
ghost use Rattle.std.specs.Map.Calls.{CalledAtPair, CallableOnEachPair, RetainsPairs, TakesPair};
ghost use Rattle.std.specs.Str.{bytes_eq};
ghost use Rattle.std.specs.Option.{option_copied, option_copied_mut};
ghost use Rattle.std.specs.Coded.{coded_ℕ, coded_list, coded×};
ghost use Rattle.jzon_base.specs.PairList.{entries_in_box, put_each};
ghost use Rattle.jzon_base.specs.Private.KnownKeys.{Knows};

mod contents;
mod iter;
mod iter_mut;

use crate::key::Key;
use crate::keys::few::{LINEAR_MAX, are_distinct};
use crate::keys::{self, Keys, KnownKeys};
use contents::Contents;
pub use iter::Iter;
pub use iter_mut::IterMut;
use std::alloc::{AllocError, Global};
use std::fmt;
use std::marker::Model;

/// Values under distinct keys, in the order in which the keys were put. There is no box before an
/// entry is put or room is asked for.
#[derive(Drop)]
pub struct Pairs<V> {
    alloc: Global,
    entries: Option<Box<Contents<V>>>,
}

impl<V> Model for Pairs<V> {
    ghost Value = { List (List ℕ × V) };

    ghost coded = { coded_list (coded× (coded_list coded_ℕ) V.code) };

    ghost view = { λ p. entries_in_box p.entries };
}

impl<V> Pairs<V> {
    ghost use Rattle.std.specs.Borrow.{sem, Lends, LendsIf, LendsIfOk};
    ghost use Rattle.jzon_base.specs.contracts.pairs.Pairs.{the_row};
    ghost use Rattle.jzon_base.specs.contracts.pairs.contents.Contents.{the_row as entries_row};
    ghost use Rattle.jzon_base.specs.PairList.{find, put, cut, set_value, with_default, keys_of, values_of};

    /// No entry. Allocates nothing.
    pub fn new(alloc: Global) -> Pairs<V>
        ensures { result ≡ [] }
    {
        let entries = None;
        Pairs { alloc, entries }
    }

    /// Puts keys and as many values in a box.
    #[inline(always)]
    fn boxed(alloc: Global, keys: Keys, values: Vec<V>) -> Result<Pairs<V>, AllocError>
    where
        V: Drop,
        requires { length values.items ≡ length keys }
        ensures { IfOk result (λ p. p ≡ zip keys values.items) }
    {
        let entries = Some(Box::new(alloc, Contents { keys, values })?);
        Ok(Pairs { alloc, entries })
    }

    /// No entry, with room for `capacity` of them, and for their index.
    pub fn with_capacity(alloc: Global, capacity: usize) -> Result<Pairs<V>, AllocError>
    where
        V: Drop,
        ensures { IfOk result (λ p. p ≡ []) }
    {
        if capacity == 0 {
            return Ok(Pairs::new(alloc));
        }
        let keys = Keys::with_capacity(alloc, capacity)?;
        let values = Vec::with_capacity(alloc, capacity)?;
        Pairs::boxed(alloc, keys, values)
    }

    /// The entries of keys and as many values, put one after the other: of equal keys, the last
    /// value at the position of the first. Inlined for few distinct keys, because each small object
    /// of a text is made here.
    #[inline(always)]
    pub fn from_entries(
        alloc: Global,
        keys: Vec<Key>,
        values: Vec<V>,
    ) -> Result<Pairs<V>, AllocError>
    where
        V: Drop,
        requires { length values.items ≡ length keys.items }
        ensures { IfOk result (λ p. p ≡ put_each (zip keys.items values.items)) }
    {
        if keys.is_empty() {
            return Ok(Pairs::new(alloc));
        }
        if keys.len() <= LINEAR_MAX && are_distinct(keys.as_slice()) {
            return Pairs::boxed(alloc, Keys::from_distinct(alloc, keys), values);
        }
        Pairs::merged(alloc, keys, values)
    }

    /// The rest of `from_entries`, not inlined: more than `LINEAR_MAX` keys, or repeated ones, which
    /// get the last value at the first's position.
    #[inline(never)]
    fn merged(alloc: Global, keys: Vec<Key>, values: Vec<V>) -> Result<Pairs<V>, AllocError>
    where
        V: Drop,
        requires { length values.items ≡ length keys.items }
        ensures { IfOk result (λ p. p ≡ put_each (zip keys.items values.items)) }
    {
        let (keys, values) = Keys::from_entries(alloc, keys, values)?;
        Pairs::boxed(alloc, keys, values)
    }

    /// The entries of distinct keys and as many values, with the index that `known` has, if any. Of
    /// distinct keys `put_each` is just the entries.
    pub fn from_known(
        alloc: Global,
        keys: Vec<Key>,
        known: KnownKeys,
        values: Vec<V>,
    ) -> Result<Pairs<V>, AllocError>
    where
        V: Drop,
        requires even { length values.items ≡ length keys.items }
        requires known { Knows keys.items known }
        ensures { IfOk result (λ p. p ≡ put_each (zip keys.items values.items)) }
    {
        if keys.is_empty() {
            return Ok(Pairs::new(alloc));
        }
        let keys = Keys::from_known(alloc, keys, known);
        Pairs::boxed(alloc, keys, values)
    }

    /// A copy of the keys, with these values.
    pub fn with_values(&self, alloc: Global, values: Vec<V>) -> Result<Pairs<V>, AllocError>
    where
        V: Drop,
        requires { length values.items ≡ length self.now }
        ensures { IfOk result (λ p. p ≡ zip (keys_of self.now) values.items) }
    {
        match &self.entries {
            Some(entries) => Pairs::boxed(alloc, entries.keys().clone(alloc)?, values),
            None => Ok(Pairs::new(alloc)),
        }
    }

    /// The keys, and the values in the order of their keys.
    pub fn into_parts(self) -> (Keys, Vec<V>)
        ensures keys { result.0 ≡ keys_of self }
        ensures values { result.1.items ≡ values_of self }
    {
        match self.entries {
            Some(entries) => {
                let Contents { keys, values } = Box::into_inner(entries);
                (keys, values)
            }
            None => (Keys::new(self.alloc), Vec::new(self.alloc)),
        }
    }

    /// The allocator, for std's `Clone` of objects, which is passed none.
    pub fn allocator(&self) -> Global {
        self.alloc
    }

    /// How many entries. (`distinct`, true of all `Pairs`, is for callers' proofs.)
    pub fn len(&self) -> usize
        ensures len { result ≡ length self.now }
        ensures distinct { IsDistinct bytes_eq (keys_of self.now) }
    {
        match &self.entries {
            Some(entries) => entries.keys().len(),
            None => 0,
        }
    }

    /// Whether there is no entry.
    pub fn is_empty(&self) -> bool
        ensures { result ≡ (length self.now == 0) }
    {
        self.len() == 0
    }

    /// Iterates over the keys in order, from both ends.
    pub fn keys(&self) -> keys::Iter<'_>
        ensures { result ≡ keys_of self.now }
    {
        if let Some(entries) = &self.entries {
            return entries.keys().iter();
        }
        keys::Iter::empty()
    }

    /// The values, in the order of their keys.
    pub fn values(&self) -> &[V]
        ensures { result.now ≡ values_of self.now }
    {
        if let Some(entries) = &self.entries {
            return entries.values.as_slice();
        }
        &[]
    }

    /// The position of the entry with this key, or `None`.
    pub fn position(&self, name: &str) -> Option<usize>
        ensures { result ≡ position (λ k. bytes_eq k name.now) (keys_of self.now) }
    {
        match &self.entries {
            Some(entries) => entries.keys().position(name),
            None => None,
        }
    }

    /// The entry at a position.
    pub fn get_at(&self, position: usize) -> (&str, &V)
        requires { position < length self.now }
        ensures { slice_get self.now position ≡ Some (result.0.now, result.1.now) }
    {
        match &self.entries {
            Some(entries) => (entries.keys().get(position), &entries.values[position]),
            None => unreachable!(),
        }
    }

    /// The box, to be written; `None` if there is none, and so no entry.
    fn entries_mut(&mut self) -> Option<&mut Contents<V>>
        ensures* writes_back { sem 𝓛 (LendsIf (the_row V.row) (entries_row V.row) self.entry result
            (λ es. es) []) }
        ensures value { MatchOption result (self.old ≡ [])
            (λ entries. entries.now ≡ self.old) }
    {
        match &mut self.entries {
            Some(entries) => Some(entries.as_mut()),
            None => None,
        }
    }

    /// The value at a position, to be written.
    pub fn value_mut(&mut self, position: usize) -> &mut V
        requires { position < length self.old }
        ensures* writes_back { sem 𝓛 (Lends (the_row V.row) V.row self.entry result
            (set_value self.old position)) }
        ensures value { slice_get (values_of self.old) position ≡ Some result.now }
    {
        match self.entries_mut() {
            Some(entries) => entries.value_mut(position),
            None => unreachable!(),
        }
    }

    /// The value of a key, or `None` if it is missing.
    #[tactic(auto, using(crate::proofs::Entries::PairPositions::places))]
    pub fn get(&self, name: &str) -> Option<&V>
        ensures { option_copied result ≡ find name.now self.now }
    {
        Some(self.get_at(self.position(name)?).1)
    }

    /// The value of a key, to be written, or `None` if it is missing.
    #[tactic(auto, using(crate::proofs::Entries::PairPositions::places))]
    pub fn get_mut(&mut self, name: &str) -> Option<&mut V>
        ensures* writes_back { sem 𝓛 (LendsIf (the_row V.row) V.row self.entry result
            (λ w. put name.now w self.old)
            self.old) }
        ensures value { option_copied_mut result ≡ find name.now self.old }
    {
        let position = self.position(name)?;
        Some(self.value_mut(position))
    }

    /// Puts the first entry, into a new box.
    #[inline(never)]
    fn insert_first(&mut self, alloc: Global, name: &str, value: V) -> Result<(), AllocError>
    where
        V: Drop,
        requires { self.old ≡ [] }
        ensures ok { OnOk result (self.new ≡ (name.now, value) ∷ []) }
        ensures err { OnErr result (self.new ≡ self.old) }
    {
        let keys = Keys::new(alloc);
        let values = Vec::new(alloc);
        let mut entries = Box::new(alloc, Contents { keys, values })?;
        entries.insert(alloc, name, value)?;
        self.entries = Some(entries);
        Ok(())
    }

    /// Puts a value under a key: replaces that of a key that is there, which allocates nothing, or
    /// else puts the entry last. After an error nothing has changed.
    pub fn insert(&mut self, alloc: Global, name: &str, value: V) -> Result<(), AllocError>
    where
        V: Drop,
        ensures ok { OnOk result (self.new ≡ put name.now value self.old) }
        ensures err { OnErr result (self.new ≡ self.old) }
        ensures present { OnErr result (find name.now self.old ≡ None) }
    {
        if let Some(entries) = &mut self.entries {
            return entries.insert(alloc, name, value);
        }
        self.insert_first(alloc, name, value)
    }

    /// The position of a key. A missing key is put last with `value`; else `value` is dropped, and
    /// nothing allocated. After an error nothing has changed.
    pub fn place(&mut self, alloc: Global, name: &str, value: V) -> Result<usize, AllocError>
    where
        V: Drop,
        ensures position { IfOk result (λ i. position (λ k. bytes_eq k name.now) (keys_of self.new)
            ≡ Some i) }
        ensures ok { OnOk result (self.new ≡ with_default name.now value self.old) }
        ensures err { OnErr result (self.new ≡ self.old) }
        ensures present { OnErr result (find name.now self.old ≡ None) }
    {
        if let Some(entries) = &mut self.entries {
            return entries.place(alloc, name, value);
        }
        self.insert_first(alloc, name, value)?;
        Ok(0)
    }

    /// The value of a key, to be written. A missing key is first put last with `value`; else
    /// `value` is dropped. After an error nothing has changed.
    #[tactic(auto, using(crate::proofs::Entries::PairPositions::places))]
    pub fn at_mut(&mut self, alloc: Global, name: &str, value: V) -> Result<&mut V, AllocError>
    where
        V: Drop,
        ensures* writes_back { sem 𝓛 (LendsIfOk (the_row V.row) V.row self.entry result
            (λ w. put name.now w self.old)
            self.old) }
        ensures value { IfOk result (λ x. Some x.now
            ≡ find name.now (with_default name.now value self.old)) }
        ensures present { OnErr result (find name.now self.old ≡ None) }
    {
        let position = self.place(alloc, name, value)?;
        Ok(self.value_mut(position))
    }

    /// Replaces the last value, if there is one.
    pub fn override_last(&mut self, value: V)
    where
        V: Drop,
        ensures { self.new ≡ set_value self.old (length self.old - 1) value }
    {
        let len = self.len();
        if 0 < len {
            *self.value_mut(len - 1) = value;
        }
    }

    /// Removes and returns the entry at a position. The others keep their order. Allocates nothing.
    pub fn remove_at(&mut self, position: usize) -> (Key, V)
        requires { position < length self.old }
        ensures entry { slice_get self.old position ≡ Some result }
        ensures after { self.new ≡ remove self.old position }
    {
        match &mut self.entries {
            Some(entries) => entries.remove_at(position),
            None => unreachable!(),
        }
    }

    /// Removes the entry of a key, and returns its value, or `None` if it is missing. The others
    /// keep their order. Allocates nothing.
    #[tactic(auto, using(crate::proofs::Entries::PairPositions::places))]
    pub fn remove(&mut self, name: &str) -> Option<V>
        ensures value { result ≡ find name.now self.old }
        ensures after { self.new ≡ cut name.now self.old }
    {
        let position = self.position(name)?;
        let (_key, value) = self.remove_at(position);
        Some(value)
    }

    /// Keeps the entries for which `keep` returns `true`, in their order. It is called once for
    /// each, in order, and may change the value. Allocates nothing.
    pub fn retain<F: FnMut(&str, &mut V) -> bool>(&mut self, keep: F)
    where
        V: Drop,
        requires { CallableOnEachPair (CalledAtPair F.FnMut) (TakesPair F.FnMut) keep self.old }
        ensures { RetainsPairs (CalledAtPair F.FnMut) keep self.old self.new }
    {
        if let Some(entries) = &mut self.entries {
            let entries = entries.as_mut();
            entries.keys.retain(&mut entries.values, keep);
        }
    }

    /// Removes all entries. The box and its capacity are kept.
    pub fn clear(&mut self)
    where
        V: Drop,
        ensures { self.new ≡ [] }
    {
        if let Some(entries) = &mut self.entries {
            let entries = entries.as_mut();
            entries.keys.clear();
            entries.values.clear();
        }
    }
}

impl<V: fmt::Debug> fmt::Debug for Pairs<V> {
    fn fmt<W: fmt::Write>(&self, f: &mut fmt::Formatter<W>) -> fmt::Result {
        f.debug_map().entries(self.iter()).finish()
    }
}
