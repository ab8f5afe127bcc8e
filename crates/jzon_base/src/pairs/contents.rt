//! The keys and the values of `Pairs`, which are in its box.
ghost use Rattle.std.specs.Prelude.{◌≡◌, ◌<◌, List, ℕ, length, remove, slice_get, Some, None, OnOk, OnErr, IfOk};
ghost use Rattle.std.specs.List.{position, zip};
ghost use Rattle.std.specs.Str.{bytes_eq};
ghost use Rattle.std.specs.Coded.{coded_ℕ, coded_list, coded×};

use crate::key::Key;
use crate::keys::Keys;
use std::alloc::{AllocError, Global};
use std::marker::Model;

/// Distinct keys, and as many values in the order of their keys.
#[derive(Drop)]
pub struct Contents<V> {
    pub(super) keys: Keys,
    pub(super) values: Vec<V>,
}

impl<V> Model for Contents<V> {
    ghost Value = { List (List ℕ × V) };

    ghost coded = { coded_list (coded× (coded_list coded_ℕ) V.code) };

    ghost view = { λ p. zip p.keys p.values.items };

    ghost invariant = { λ p. length p.values.items ≡ length p.keys };
}

impl<V> Contents<V> {
    ghost use Rattle.std.specs.Borrow.{sem, Lends};
    ghost use Rattle.jzon_base.specs.contracts.pairs.contents.Contents.{the_row};
    ghost use Rattle.jzon_base.specs.PairList.{find, put, set_value, with_default, keys_of, values_of};

    /// The keys, in the order of the entries.
    pub fn keys(&self) -> &Keys
        ensures { result.now ≡ keys_of self.now }
    {
        &self.keys
    }

    /// The value at a position, to be written.
    pub fn value_mut(&mut self, position: usize) -> &mut V
        requires { position < length self.old }
        ensures* writes_back { sem 𝓛 (Lends (the_row V.row) V.row self.entry result
            (set_value self.old position)) }
        ensures value { slice_get (values_of self.old) position ≡ Some result.now }
    {
        &mut self.values[position]
    }

    /// Puts a value under a key: replaces that of a key that is there, or puts the entry last, for
    /// which `Keys::put` has made room.
    #[inline(always)]
    #[tactic(auto, using(crate::proofs::Entries::PairPositions::places))]
    pub fn insert(&mut self, alloc: Global, name: &str, value: V) -> Result<(), AllocError>
    where
        V: Drop,
        ensures ok { OnOk result (self.new ≡ put name.now value self.old) }
        ensures err { OnErr result (self.new ≡ self.old) }
        ensures present { OnErr result (find name.now self.old ≡ None) }
    {
        match self.keys.put(alloc, &mut self.values, name)? {
            Some(position) => self.values[position] = value,
            None => self.values.push_reserved(value),
        }
        Ok(())
    }

    /// The position of a key. A missing one is put last with `value`, for which `Keys::put` has
    /// made room; else `value` is dropped.
    #[tactic(auto, using(crate::proofs::Entries::PairPositions::places))]
    pub fn place(&mut self, alloc: Global, name: &str, value: V) -> Result<usize, AllocError>
    where
        V: Drop,
        ensures position { IfOk result (λ i. position (λ k. bytes_eq k name.now) (keys_of self.new)
            ≡ Some i) }
        ensures ok { OnOk result (self.new ≡ with_default name.now value self.old) }
        ensures err { OnErr result (self.new ≡ self.old) }
        ensures present { OnErr result (find name.now self.old ≡ None) }
    {
        match self.keys.put(alloc, &mut self.values, name)? {
            Some(position) => Ok(position),
            None => {
                let position = self.values.len();
                self.values.push_reserved(value);
                Ok(position)
            }
        }
    }

    /// Removes and returns the entry at a position.
    pub fn remove_at(&mut self, position: usize) -> (Key, V)
        requires { position < length self.old }
        ensures entry { slice_get self.old position ≡ Some result }
        ensures after { self.new ≡ remove self.old position }
    {
        let key = self.keys.remove(position);
        (key, self.values.remove(position))
    }
}
