//! The index of keys, by hashes that the caller gives.

use crate::common::expect_eq;
use jzon_base::key::Key;
use jzon_base::keys::runs::Runs;
use std::alloc::{AllocError, Global};
use std::marker::Model;
use std::process::Abort;

/// Distinct keys that all have the hash 7. A clause sees the list of their bytes.
#[derive(Drop)]
struct Sevens {
    keys: Vec<Key>,
    index: Runs,
}

impl Model for Sevens {
    ghost use Rattle.std.specs.Prelude.{List, ℕ, map};
    ghost use Rattle.std.specs.List.{IsDistinct};
    ghost use Rattle.std.specs.Str.{bytes_eq};
    ghost use Rattle.jzon_base.specs.Private.Runs.{IsIndexOf};

    ghost Value = { List (List ℕ) };

    ghost view = { λ s. s.keys.items };

    ghost invariant = { λ s. IsIndexOf (map (λ _. 7) s.keys.items) s.keys.items s.index
        × IsDistinct bytes_eq s.keys.items };
}

impl Sevens {
    fn new(alloc: Global) -> Sevens {
        Sevens {
            keys: Vec::new(alloc),
            index: Runs::new(alloc),
        }
    }

    fn find(&self, name: &str) -> Option<usize> {
        self.index.search(self.keys.as_slice(), 7, name).ok()
    }

    /// Adds a key unless it is there.
    fn add(&mut self, alloc: Global, name: &str) -> Result<(), AllocError> {
        let key = Key::new(alloc, name)?;
        self.keys.reserve(1)?;
        match self.index.search(self.keys.as_slice(), 7, name) {
            Ok(_) => return Ok(()),
            Err(spot) => self.index.add(alloc, self.keys.as_slice(), 7, spot)?,
        }
        self.keys.push_reserved(key);
        Ok(())
    }

    fn cut(&mut self, at: usize) {
        if at < self.keys.len() {
            drop(self.keys.remove(at));
            self.index.cut(at);
        }
    }
}

/// The keys are these, in this order, and not the absent ones.
fn expect_keys(rt: &impl Abort, keys: &Sevens, names: &[&str], absent: &[&str]) {
    for (index, name) in names.iter().enumerate() {
        expect_eq(rt, name, keys.find(name), Some(index));
    }
    for name in absent {
        expect_eq(rt, name, keys.find(name), None);
    }
}

#[test]
fn finds_keys_of_one_hash(rt: HostRuntime) -> Result<(), AllocError> {
    let mut keys = Sevens::new(rt.alloc());
    for name in ["d", "b", "a", "c"] {
        keys.add(rt.alloc(), name)?;
    }
    expect_keys(&rt, &keys, &["d", "b", "a", "c"], &["e"]);
    keys.cut(1);
    expect_keys(&rt, &keys, &["d", "a", "c"], &["b", "e"]);
    Ok(())
}
