//! The keys of an object in the order in which they were put, and the position of each
//! (docs/RULES.md, "Objects"). Up to `LINEAR_MAX` keys, 32, are compared one by one. From the next
//! on, and still after removals, there is an index: sorted vectors, *runs*, with an entry for each
//! key, its hash and position.
ghost use Rattle.std.specs.Prelude.{◌≡◌, ◌<◌, ◌++◌, ◌∷◌, ◌==◌, [], length, remove, slice_get, List, ℕ, IfOk, IfErr, OnOk, OnErr, MatchOption, None, Some, vec_len, vec_capacity};
ghost use Rattle.std.specs.List.{position, zip, IsDistinct};
ghost use Rattle.std.specs.Result.{result_ok};
ghost use Rattle.std.specs.Str.{bytes_eq};
ghost use Rattle.jzon_base.specs.PairList.{put_each};
ghost use Rattle.jzon_base.specs.Private.Runs.{all_entries, IsIndexed, IsSpotFor, IsTable};
ghost use Rattle.jzon_base.specs.Private.KnownKeys.{Knows};

mod entries;
pub(crate) mod few;
mod filter;
pub mod hash;
mod iter;
mod known;
mod retain;
pub mod runs;

use crate::key::Key;
use few::LINEAR_MAX;
use hash::hash_of;
pub use iter::Iter;
pub use known::KnownKeys;
use runs::Runs;
use std::alloc::{AllocError, Global};
use std::marker::Model;

/// The first capacity of a vector that grows one by one.
const FIRST_ROOM: usize = 8;

/// Distinct keys, and their index, which may be empty.
#[derive(Drop)]
pub struct Keys {
    keys: Vec<Key>,
    index: Runs,
}

impl Model for Keys {
    ghost Value = { List (List ℕ) };

    ghost view = { λ k. k.keys.items };

    ghost invariant = { λ k. IsTable k.keys.items k.index };
}

/// Where the index entry of a missing key of this hash belongs.
#[derive(Drop)]
struct Spot {
    hash: u64,
    /// The position of the entry in the last run.
    at: usize,
}

/// The position of the key `name`. At `Err` it is missing: where its index entry belongs; `None`
/// without an index. Not a method, because `KnownKeys` calls it too.
#[inline(always)]
fn search(keys: &[Key], index: &Runs, name: &str) -> Result<usize, Option<Spot>>
    requires { IsTable keys.now index.now }
    ensures position { result_ok result ≡ position (λ k. bytes_eq k name.now) keys.now }
    ensures spot { IfErr result (λ spot. MatchOption spot (length (all_entries index.now) ≡ 0)
        (λ s. IsSpotFor keys.now index.now name.now s.hash s.at)) }
{
    if index.is_empty() {
        return few::position(keys, name).ok_or(None);
    }
    let hash = hash_of(name);
    index
        .search(keys, hash, name)
        .map_err(|at| Some(Spot { hash, at }))
}

/// Makes the index of `keys` and the missing key `name`, which the caller then pushes. After an
/// error the index is empty or that of `keys`.
#[inline(never)]
fn begin_index(alloc: Global, keys: &[Key], index: &mut Runs, name: &str) -> Result<(), AllocError>
    requires distinct { IsDistinct bytes_eq keys.now }
    requires missing { position (λ k. bytes_eq k name.now) keys.now ≡ None }
    ensures ok { OnOk result (IsIndexed (keys.now ++ name.now ∷ []) index.new) }
    ensures err { OnErr result (IsIndexed keys.now index.new) }
{
    index.fill(alloc, keys)?;
    let hash = hash_of(name);
    match index.search(keys, hash, name) {
        Ok(_) => unreachable!(),
        Err(at) => index.add(alloc, keys, hash, at),
    }
}

/// Adds the entry of the missing key `name`, which the caller then pushes, at the `spot` from
/// `search`. Without an index, `LINEAR_MAX` keys or more get one, fewer don't. After an error it is
/// empty or that of `keys`.
#[inline(always)]
fn add_entry(
    alloc: Global,
    keys: &[Key],
    index: &mut Runs,
    name: &str,
    spot: Option<Spot>,
) -> Result<(), AllocError>
    requires table { IsTable keys.now index.old }
    requires missing { position (λ k. bytes_eq k name.now) keys.now ≡ None }
    requires spot { MatchOption spot (length (all_entries index.old) ≡ 0)
        (λ s. IsSpotFor keys.now index.old name.now s.hash s.at) }
    ensures ok { OnOk result (IsIndexed (keys.now ++ name.now ∷ []) index.new) }
    ensures err { OnErr result (IsIndexed keys.now index.new) }
{
    let Some(spot) = spot else {
        if keys.len() < LINEAR_MAX {
            return Ok(());
        }
        return begin_index(alloc, keys, index, name);
    };
    index.add(alloc, keys, spot.hash, spot.at)
}

/// Reserves room for one element. If there is some, this test takes fewer instructions than
/// `reserve`.
#[inline(always)]
fn reserve_next<T>(items: &mut Vec<T>) -> Result<(), AllocError>
    ensures items { items.new.items ≡ items.old.items }
    ensures room { OnOk result (vec_len items.new < vec_capacity items.new) }
{
    if items.len() < items.capacity() {
        return Ok(());
    }
    let room = if items.capacity() == 0 { FIRST_ROOM } else { 1 };
    items.reserve(room)
}

/// Puts one entry after the other, for `Keys::from_entries`.
#[inline(never)]
fn put_each<V: Drop>(
    alloc: Global,
    mut keys: Vec<Key>,
    mut values: Vec<V>,
) -> Result<(Keys, Vec<V>), AllocError>
    requires { length values.items ≡ length keys.items }
    ensures even { IfOk result (λ r. length r.1.items ≡ length r.0) }
    ensures merged { IfOk result (λ r. zip r.0 r.1.items ≡ put_each (zip keys.items values.items)) }
{
    let mut index = Runs::new(alloc);
    // The first `kept` keys and values are the result so far. The value of a repeated key is
    // swapped with the earlier one, which is cut off at the end.
    let mut kept = 0;
    for at in 0..keys.len() {
        let before = &keys[..kept];
        let name = keys[at].as_str();
        match search(before, &index, name) {
            Ok(position) => values.swap(position, at),
            Err(spot) => {
                add_entry(alloc, before, &mut index, name, spot)?;
                keys.swap(kept, at);
                values.swap(kept, at);
                kept += 1;
            }
        }
    }
    keys.truncate(kept);
    values.truncate(kept);
    // Copies, so that the room of the entries that are gone is freed.
    let keys = keys.split_off(0)?;
    let values = values.split_off(0)?;
    Ok((Keys { keys, index }, values))
}

impl Keys {
    /// No key. Allocates nothing.
    pub fn new(alloc: Global) -> Keys
        ensures { result ≡ [] }
    {
        Keys::from_distinct(alloc, Vec::new(alloc))
    }

    /// No key, with capacity for `capacity` of them, and for their index if they need one.
    pub fn with_capacity(alloc: Global, capacity: usize) -> Result<Keys, AllocError>
        ensures { IfOk result (λ k. k ≡ []) }
    {
        let keys = Vec::with_capacity(alloc, capacity)?;
        let index = Runs::with_capacity(alloc, capacity)?;
        Ok(Keys { keys, index })
    }

    /// Distinct keys, without an index. Look-ups compare each, so callers pass few (`LINEAR_MAX`).
    #[inline(always)]
    pub fn from_distinct(alloc: Global, keys: Vec<Key>) -> Keys
        requires { IsDistinct bytes_eq keys.items }
        ensures { result ≡ keys.items }
    {
        let index = Runs::new(alloc);
        Keys { keys, index }
    }

    /// The keys and values of entries put one after the other: of equal keys, the last value at the
    /// position of the first. If none repeats, more than `LINEAR_MAX` keys get their index by one
    /// sort.
    pub fn from_entries<V: Drop>(
        alloc: Global,
        keys: Vec<Key>,
        values: Vec<V>,
    ) -> Result<(Keys, Vec<V>), AllocError>
        requires { length values.items ≡ length keys.items }
        ensures even { IfOk result (λ r. length r.1.items ≡ length r.0) }
        ensures merged { IfOk result (λ r. zip r.0 r.1.items
            ≡ put_each (zip keys.items values.items)) }
    {
        if LINEAR_MAX < keys.len()
            && let Some(entries) = entries::of(alloc, keys.as_slice())?
        {
            let index = Runs::of(alloc, entries)?;
            return Ok((Keys { keys, index }, values));
        }
        put_each(alloc, keys, values)
    }

    /// These keys, in which `known` found no repeated one, with its index of them, if any.
    pub fn from_known(alloc: Global, keys: Vec<Key>, known: KnownKeys) -> Keys
        requires { Knows keys.items known }
        ensures { result ≡ keys.items }
    {
        Keys {
            keys,
            index: known.into_index(alloc),
        }
    }

    /// The keys, without their index.
    pub fn into_vec(self) -> Vec<Key>
        ensures keys { result.items ≡ self }
        ensures distinct { IsDistinct bytes_eq self }
    {
        self.keys
    }

    /// How many keys. (`distinct`, true of all `Keys`, is for callers' proofs.)
    pub fn len(&self) -> usize
        ensures len { result ≡ length self.now }
        ensures distinct { IsDistinct bytes_eq self.now }
    {
        self.keys.len()
    }

    /// The position of a key, or `None` if it is missing.
    pub fn position(&self, name: &str) -> Option<usize>
        ensures { result ≡ position (λ k. bytes_eq k name.now) self.now }
    {
        search(self.keys.as_slice(), &self.index, name).ok()
    }

    /// The text of the key at a position.
    pub fn get(&self, position: usize) -> &str
        requires { position < length self.now }
        ensures { slice_get self.now position ≡ Some result.now }
    {
        self.keys[position].as_str()
    }

    /// The position of the key `name`. If it is missing, it is put last, the result is `None`, and
    /// `values` has room for its value, which the caller pushes.
    #[inline(always)]
    pub fn put<V>(
        &mut self,
        alloc: Global,
        values: &mut Vec<V>,
        name: &str,
    ) -> Result<Option<usize>, AllocError>
        ensures items { values.new.items ≡ values.old.items }
        ensures room { IfOk result (λ place. place ≡ None
            → vec_len values.new < vec_capacity values.new) }
        ensures position { IfOk result (λ place. place
            ≡ position (λ k. bytes_eq k name.now) self.old) }
        ensures ok { IfOk result (λ place. MatchOption place
            (self.new ≡ self.old ++ name.now ∷ []) (λ _. self.new ≡ self.old)) }
        ensures err { OnErr result (self.new ≡ self.old) }
        ensures missing { OnErr result (position (λ k. bytes_eq k name.now) self.old ≡ None) }
    {
        let spot = match search(self.keys.as_slice(), &self.index, name) {
            Ok(position) => return Ok(Some(position)),
            Err(spot) => spot,
        };
        // All allocations come first, so that a failed one changes no key.
        reserve_next(&mut self.keys)?;
        reserve_next(values)?;
        let key = Key::new(alloc, name)?;
        add_entry(alloc, self.keys.as_slice(), &mut self.index, name, spot)?;
        self.keys.push_reserved(key);
        Ok(None)
    }

    /// Removes and returns the key at a position; later ones move down. Allocates nothing.
    pub fn remove(&mut self, position: usize) -> Key
        requires { position < length self.old }
        ensures key { slice_get self.old position ≡ Some result }
        ensures after { self.new ≡ remove self.old position }
    {
        let key = self.keys.remove(position);
        self.index.cut(position);
        key
    }

    /// Removes all keys. Their room, and that of the index's first run, is kept.
    pub fn clear(&mut self)
        ensures { self.new ≡ [] }
    {
        self.keys.clear();
        self.index.clear();
    }

    /// A copy, with an index of the same runs.
    pub fn clone(&self, alloc: Global) -> Result<Keys, AllocError>
        ensures { IfOk result (λ k. k ≡ self.now) }
    {
        let mut keys = Vec::with_capacity(alloc, self.keys.len())?;
        for key in self.keys.as_slice() {
            keys.push_reserved(key.clone(alloc)?);
        }
        let index = self.index.clone(alloc)?;
        Ok(Keys { keys, index })
    }

    /// Iterates in order, from both ends.
    pub fn iter(&self) -> Iter<'_>
        ensures { result ≡ self.now }
    {
        Iter::new(self.keys.as_slice())
    }
}
