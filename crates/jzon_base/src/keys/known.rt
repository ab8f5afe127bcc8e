//! Finds repeated keys while an object is read: a strict reading, a setting of the parser, asks
//! before it adds a key to its vector.
//!
//! Up to `LINEAR_MAX` keys have a filter. More have an index, which becomes the object's: so n keys
//! take about n (log n)^2 comparisons, whatever they are.
ghost use Rattle.std.specs.Prelude.{◌≡◌, ◌++◌, ◌∷◌, [], true, false, is_some, IfOk, OnErr, List, ℕ};
ghost use Rattle.std.specs.List.{position};
ghost use Rattle.std.specs.Str.{bytes_eq};
ghost use Rattle.jzon_base.specs.Private.Runs.{IsTable};
ghost use Rattle.jzon_base.specs.Private.KnownKeys.{Knows};

use super::few::LINEAR_MAX;
use super::filter::Filter;
use super::runs::Runs;
use super::{add_entry, search};
use crate::key::Key;
use std::alloc::{AllocError, Global};

/// The filter or the index of distinct keys, which are in a vector of the caller. The box keeps
/// `KnownKeys` small.
#[derive(Drop)]
pub enum KnownKeys {
    Few(Filter),
    Indexed(Box<Runs>),
}

/// Whether one of at least `LINEAR_MAX` keys has this name. If not, its entry is added to `index`
/// (with those of all keys, if it is empty), and the caller pushes the key. After an error `index`
/// is empty or that of `keys`.
fn has_or_indexes(
    alloc: Global,
    keys: &[Key],
    index: &mut Runs,
    name: &str,
) -> Result<bool, AllocError>
    requires { IsTable keys.now index.old }
    ensures known { IfOk result (λ known. known
        ≡ is_some (position (λ k. bytes_eq k name.now) keys.now)) }
    ensures present { IfOk result (λ known. known ≡ true → IsTable keys.now index.new) }
    ensures missing { IfOk result (λ known. known ≡ false
        → IsTable (keys.now ++ name.now ∷ []) index.new) }
    ensures err { OnErr result (IsTable keys.now index.new) }
{
    match search(keys, index, name) {
        Ok(_) => Ok(true),
        Err(spot) => {
            add_entry(alloc, keys, index, name, spot)?;
            Ok(false)
        }
    }
}

impl KnownKeys {
    /// No key is known. Allocates nothing.
    pub fn new() -> KnownKeys
        ensures { Knows [] result }
    {
        KnownKeys::Few(Filter::new())
    }

    /// Whether a key has this name. If not, it is known from now on, and the caller pushes its key.
    /// After an error exactly `keys` are known.
    pub fn has_or_notes(
        &mut self,
        alloc: Global,
        keys: &[Key],
        name: &str,
    ) -> Result<bool, AllocError>
        requires { Knows keys.now self.old }
        ensures known { IfOk result (λ known. known
            ≡ is_some (position (λ k. bytes_eq k name.now) keys.now)) }
        ensures present { IfOk result (λ known. known ≡ true → Knows keys.now self.new) }
        ensures missing { IfOk result (λ known. known ≡ false
            → Knows (keys.now ++ name.now ∷ []) self.new) }
        ensures err { OnErr result (Knows keys.now self.new) }
    {
        match self {
            KnownKeys::Few(filter) => {
                if keys.len() < LINEAR_MAX {
                    return Ok(filter.has_or_notes(keys, name));
                }
                // Empty: `has_or_indexes` adds all keys.
                let mut index = Box::new(alloc, Runs::new(alloc))?;
                let known = has_or_indexes(alloc, keys, &mut index, name)?;
                *self = KnownKeys::Indexed(index);
                Ok(known)
            }
            KnownKeys::Indexed(index) => has_or_indexes(alloc, keys, index, name),
        }
    }

    /// The index of the keys, which is empty if they have only the filter.
    pub(super) fn into_index(self, alloc: Global) -> Runs
        ensures { (ks : List (List ℕ)) → Knows ks self → IsTable ks result }
    {
        match self {
            KnownKeys::Few(_) => Runs::new(alloc),
            KnownKeys::Indexed(index) => Box::into_inner(index),
        }
    }
}
