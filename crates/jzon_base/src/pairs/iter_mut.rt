//! An iterator over entries whose values may be written, from both ends. No contract says what is
//! written through a value (docs/TOOLCHAIN.md).
ghost use Rattle.std.specs.Prelude.{◌≡◌, [], length, IfSome, Some};
ghost use Rattle.std.specs.Iterator.{YieldsFirstBy, YieldsLastBy, item_count, at_most, UpTo};
ghost use Rattle.std.specs.Iterator.SizeHint.{IsWithinCount};
ghost use Rattle.std.specs.Slice.Iter as slice_iter;

use super::Pairs;
use crate::keys;
use std::iter::FusedIterator;
use std::slice;

/// The entries that are still to come.
#[derive(Drop)]
pub struct IterMut<'a, V> {
    keys: keys::Iter<'a>,
    values: slice::IterMut<'a, V>,
    // As many values are left as keys, so that `next` requires nothing of its caller.
    ghost as_many: { length (slice_iter.iter_mut_rest values) ≡ length keys },
}

impl<'a, V> IterMut<'a, V> {
    ghost use Rattle.jzon_base.specs.IterMut.{iter_mut_rest};

    /// No entry.
    pub fn empty() -> IterMut<'a, V>
        ensures rest { iter_mut_rest result ≡ [] }
    {
        let keys = keys::Iter::empty();
        let values = [].iter_mut();
        IterMut { keys, values }
    }
}

impl<'a, V> Iterator for IterMut<'a, V> {
    ghost use Rattle.jzon_base.specs.IterMut.{iter_mut_rest};

    type Item = (&'a str, &'a mut V);

    ghost next_gives = { YieldsFirstBy (λ x. (x.0.now, x.1.now)) iter_mut_rest };

    ghost remaining = { item_count iter_mut_rest };

    fn next(&mut self) -> Option<(&'a str, &'a mut V)> {
        Some((self.keys.next()?, self.values.next()?))
    }

    fn size_hint(&self) -> (usize, Option<usize>)
        ensures lower { IsWithinCount result.0 (at_most (length (iter_mut_rest self.now))) }
        ensures upper { IfSome result.1 (UpTo (at_most (length (iter_mut_rest self.now)))) }
        ensures exact { result
            ≡ (length (iter_mut_rest self.now), Some (length (iter_mut_rest self.now))) }
    {
        let len = self.len();
        (len, Some(len))
    }
}

impl<'a, V> DoubleEndedIterator for IterMut<'a, V> {
    ghost use Rattle.jzon_base.specs.IterMut.{iter_mut_rest};

    ghost next_back_gives = { YieldsLastBy (λ x. (x.0.now, x.1.now)) iter_mut_rest };

    fn next_back(&mut self) -> Option<(&'a str, &'a mut V)> {
        Some((self.keys.next_back()?, self.values.next_back()?))
    }
}

impl<'a, V> ExactSizeIterator for IterMut<'a, V> {
    fn len(&self) -> usize {
        self.keys.len()
    }
}

impl<'a, V> FusedIterator for IterMut<'a, V> {}

impl<V> Pairs<V> {
    ghost use Rattle.jzon_base.specs.IterMut.{iter_mut_rest};

    /// Iterates over the entries in order, with each value to be written.
    pub fn iter_mut(&mut self) -> IterMut<'_, V>
        ensures rest { iter_mut_rest result ≡ self.old }
    {
        if let Some(entries) = &mut self.entries {
            let entries = entries.as_mut();
            let keys = entries.keys.iter();
            let values = entries.values.iter_mut();
            return IterMut { keys, values };
        }
        IterMut::empty()
    }
}
