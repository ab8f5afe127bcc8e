//! The index of the keys that `Keys::retain` leaves, in the room of the old one.
ghost use Rattle.std.specs.Prelude.{◌≡◌, ◌≤◌, ◌+◌, ◌-◌, drop, length, map, min, take};
ghost use Rattle.std.specs.List.Sorted.{IsPermutation, IsSorted};
ghost use Rattle.jzon_base.specs.Private.Runs.{all_entries, IsIndexOf};
ghost use Rattle.jzon_base.specs.Private.Hash.{hash_of};
ghost use Rattle.jzon_base.specs.Private.Keys.{entry_cmp, hashed_from};

use super::{Run, Runs};
use crate::key::Key;
use crate::keys::entries::{self, IndexEntry};
use crate::keys::hash::hash_of;

/// Replaces all entries by those of the keys from position `from` on, unsorted.
fn put_hashed(entries: &mut [IndexEntry], keys: &[Key], from: usize)
    requires { from + length entries.old ≤ length keys.now }
    ensures { entries.new ≡ hashed_from from (take (length entries.old) (drop from keys.now)) }
{
    let rest = &keys[from..];
    for at in 0..entries.len() {
        let hash = hash_of(rest[at].as_str());
        let position = from + at;
        entries[at] = IndexEntry { hash, position };
    }
}

impl Run {
    /// Replaces the entries by those of as many keys from position `from` on, or of all that are
    /// left, and returns the position after them.
    fn refill(&mut self, keys: &[Key], from: usize) -> usize
        requires { from ≤ length keys.now }
        ensures end { result ≡ min (from + length self.old) (length keys.now) }
        ensures entries { IsPermutation (hashed_from from
            (take (result - from) (drop from keys.now))) self.new }
        ensures sorted { IsSorted (entry_cmp keys.now) self.new }
    {
        self.entries.truncate(keys.len() - from);
        let end = from + self.entries.len();
        put_hashed(self.entries.as_mut_slice(), keys, from);
        entries::sort(keys, &mut self.entries);
        end
    }
}

impl Runs {
    /// Replaces the index by that of `keys`, which are at most as many. Runs for which no key is
    /// left become empty. Allocates nothing.
    pub fn refill(&mut self, keys: &[Key])
        requires { length keys.now ≤ length (all_entries self.old) }
        ensures { IsIndexOf (map hash_of keys.now) keys.now self.new }
    {
        let mut from = 0;
        for at in 0..self.runs.len() {
            from = self.runs[at].refill(keys, from);
        }
    }
}
