//! An iterator over keys, from both ends.
ghost use Rattle.std.specs.Prelude.{◌≡◌, List, ℕ, [], length, IfSome, Some};
ghost use Rattle.std.specs.Iterator.{YieldsFirstRef, YieldsLastRef, item_count, at_most, UpTo};
ghost use Rattle.std.specs.Iterator.SizeHint.{IsWithinCount};
ghost use Rattle.std.specs.Slice.Iter.{iter_rest};

use crate::key::Key;
use std::iter::FusedIterator;
use std::marker::Model;
use std::slice;

/// The keys that are still to come.
#[derive(Drop)]
pub struct Iter<'a> {
    keys: slice::Iter<'a, Key>,
}

impl<'a> Model for Iter<'a> {
    ghost Value = { List (List ℕ) };

    ghost view = { λ a. iter_rest a.keys };
}

impl<'a> Iter<'a> {
    pub(super) fn new(keys: &'a [Key]) -> Iter<'a>
        ensures { result ≡ keys.now }
    {
        Iter { keys: keys.iter() }
    }

    /// No key: for `Pairs` that have no box yet.
    pub fn empty() -> Iter<'a>
        ensures { result ≡ [] }
    {
        Iter { keys: [].iter() }
    }
}

impl<'a> Iterator for Iter<'a> {
    type Item = &'a str;

    ghost next_gives = { YieldsFirstRef (λ s. s) };

    ghost remaining = { item_count (λ s. s) };

    fn next(&mut self) -> Option<&'a str> {
        Some(self.keys.next()?.as_str())
    }

    fn size_hint(&self) -> (usize, Option<usize>)
        ensures lower { IsWithinCount result.0 (at_most (length self.now)) }
        ensures upper { IfSome result.1 (UpTo (at_most (length self.now))) }
        ensures exact { result ≡ (length self.now, Some (length self.now)) }
    {
        let len = self.len();
        (len, Some(len))
    }
}

impl<'a> DoubleEndedIterator for Iter<'a> {
    ghost next_back_gives = { YieldsLastRef (λ s. s) };

    fn next_back(&mut self) -> Option<&'a str> {
        Some(self.keys.next_back()?.as_str())
    }
}

impl<'a> ExactSizeIterator for Iter<'a> {
    fn len(&self) -> usize {
        self.keys.len()
    }
}

impl<'a> FusedIterator for Iter<'a> {}
