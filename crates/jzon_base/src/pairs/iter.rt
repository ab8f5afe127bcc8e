//! An iterator over entries, from both ends.
ghost use Rattle.std.specs.Prelude.{◌≡◌, List, ℕ, [], length, IfSome, Some};
ghost use Rattle.std.specs.Coded.{coded_ℕ, coded_list, coded×};
ghost use Rattle.std.specs.Iterator.{YieldsFirstBy, YieldsLastBy, item_count, at_most, UpTo};
ghost use Rattle.std.specs.Iterator.SizeHint.{IsWithinCount};
ghost use Rattle.std.specs.List.{zip};
ghost use Rattle.std.specs.Slice.Iter.{iter_rest};

use super::Pairs;
use crate::keys;
use std::iter::FusedIterator;
use std::marker::Model;
use std::slice;

/// The entries that are still to come.
#[derive(Drop)]
pub struct Iter<'a, V> {
    keys: keys::Iter<'a>,
    values: slice::Iter<'a, V>,
}

impl<'a, V> Model for Iter<'a, V> {
    ghost Value = { List (List ℕ × V) };

    ghost coded = { coded_list (coded× (coded_list coded_ℕ) V.code) };

    ghost view = { λ a. zip a.keys (iter_rest a.values) };

    ghost invariant = { λ a. length (iter_rest a.values) ≡ length a.keys };
}

impl<'a, V> Iter<'a, V> {
    /// No entry.
    pub fn empty() -> Iter<'a, V>
        ensures { result ≡ [] }
    {
        let keys = keys::Iter::empty();
        let values = [].iter();
        Iter { keys, values }
    }
}

impl<'a, V> Iterator for Iter<'a, V> {
    type Item = (&'a str, &'a V);

    ghost next_gives = { YieldsFirstBy (λ x. (x.0.now, x.1.now)) (λ s. s) };

    ghost remaining = { item_count (λ s. s) };

    fn next(&mut self) -> Option<(&'a str, &'a V)> {
        Some((self.keys.next()?, self.values.next()?))
    }

    fn size_hint(&self) -> (usize, Option<usize>)
        ensures lower { IsWithinCount result.0 (at_most (length self.now)) }
        ensures upper { IfSome result.1 (UpTo (at_most (length self.now))) }
        ensures exact { result ≡ (length self.now, Some (length self.now)) }
    {
        let len = self.len();
        (len, Some(len))
    }
}

impl<'a, V> DoubleEndedIterator for Iter<'a, V> {
    ghost next_back_gives = { YieldsLastBy (λ x. (x.0.now, x.1.now)) (λ s. s) };

    fn next_back(&mut self) -> Option<(&'a str, &'a V)> {
        Some((self.keys.next_back()?, self.values.next_back()?))
    }
}

impl<'a, V> ExactSizeIterator for Iter<'a, V> {
    fn len(&self) -> usize {
        self.keys.len()
    }
}

impl<'a, V> FusedIterator for Iter<'a, V> {}

impl<V> Pairs<V> {
    /// Iterates over the entries in order.
    pub fn iter(&self) -> Iter<'_, V>
        ensures { result ≡ self.now }
    {
        if let Some(entries) = &self.entries {
            let entries = entries.as_ref();
            let keys = entries.keys.iter();
            let values = entries.values.iter();
            return Iter { keys, values };
        }
        Iter::empty()
    }
}
