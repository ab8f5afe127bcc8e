//! Removes the entries that a closure rejects, and their keys from the index.
ghost use Rattle.std.specs.Prelude.{◌≡◌, length};
ghost use Rattle.std.specs.List.{zip};
ghost use Rattle.std.specs.Map.Calls.{CalledAtPair, CallableOnEachPair, RetainsPairs, TakesPair};

use super::Keys;
use crate::key::Key;

/// Whether `keep` keeps this entry, whose value it may change. A function, so that the proof of the
/// loop speaks of keys and values, not references.
#[inline(always)]
fn keeps<V: Drop, F: FnMut(&str, &mut V) -> bool>(keep: &mut F, key: &str, value: &mut V) -> bool
    requires { TakesPair F.FnMut keep.old key.now value.old }
    ensures { CalledAtPair F.FnMut keep.old key.now value.old result value.new keep.new }
{
    keep(key, value)
}

/// Keeps the keys and values for which `keep` returns `true`, in their order.
fn retain_entries<V: Drop, F: FnMut(&str, &mut V) -> bool>(
    keys: &mut Vec<Key>,
    values: &mut Vec<V>,
    mut keep: F,
)
    requires even { length values.old.items ≡ length keys.old.items }
    requires callable { CallableOnEachPair (CalledAtPair F.FnMut) (TakesPair F.FnMut) keep
        (zip keys.old.items values.old.items) }
    ensures even { length values.new.items ≡ length keys.new.items }
    ensures kept { RetainsPairs (CalledAtPair F.FnMut) keep (zip keys.old.items values.old.items)
        (zip keys.new.items values.new.items) }
{
    // The first `kept` entries are those kept so far.
    let mut kept = 0;
    for at in 0..keys.len() {
        if keeps(&mut keep, keys[at].as_str(), &mut values[at]) {
            keys.swap(kept, at);
            values.swap(kept, at);
            kept += 1;
        }
    }
    keys.truncate(kept);
    values.truncate(kept);
}

impl Keys {
    /// Keeps the entries for which `keep`, called once for each in order, returns `true`. If one is
    /// removed, the index is made again, in its old room. Allocates nothing.
    pub fn retain<V: Drop, F: FnMut(&str, &mut V) -> bool>(&mut self, values: &mut Vec<V>, keep: F)
        requires even { length values.old.items ≡ length self.old }
        requires callable { CallableOnEachPair (CalledAtPair F.FnMut) (TakesPair F.FnMut) keep
            (zip self.old values.old.items) }
        ensures even { length values.new.items ≡ length self.new }
        ensures kept { RetainsPairs (CalledAtPair F.FnMut) keep (zip self.old values.old.items)
            (zip self.new values.new.items) }
    {
        let count = self.keys.len();
        retain_entries(&mut self.keys, values, keep);
        if self.keys.len() < count && !self.index.is_empty() {
            self.index.refill(self.keys.as_slice());
        }
    }
}
