//! A custom layout: no whitespace, and the entries of each object in the order of their keys, by
//! bytes.
//!
//! `sorted_style` allows that order alone, so the contract says that what is printed is sorted.

ghost use Rattle.std.specs.Prelude.{◌≡◌, IfOk, map, slice_get, Some, string_bytes};
ghost use Rattle.jzon.specs.Entries.{entries_of};
ghost use Rattle.jzon.specs.Generator.{IsAnswer};
ghost use Rattle.jzon.specs.PairList.{keys_of};
ghost use Rattle.jzon.specs.SortedStyle.{sorted_style};
ghost use Rattle.jzon.specs.View.{view};
ghost use Rattle.jzon.specs.Writing.{Writes};

use jzon::codegen::Layout;
use jzon::object::Object;
use jzon::{JsonValue, Result};
use std::alloc::{AllocError, Global};

/// The text of a value in this layout.
pub fn sorted_text(alloc: Global, value: &JsonValue) -> Result<String>
    ensures { IfOk result (λ text. Writes sorted_style 0 (view value.now) (string_bytes text)) }
{
    value.lay_out(alloc, Sorted { alloc })
}

/// This layout.
#[derive(Drop)]
pub struct Sorted {
    pub alloc: Global,
}

impl Layout for Sorted {
    ghost use Rattle.jzon.specs.SortedStyle.{sorted_style};
    ghost use Rattle.jzon.specs.SortedStyleLaws.{IsStyle-sorted};

    ghost style = { λ _. sorted_style };

    fn spaces(&self) -> Option<u16> {
        None
    }

    fn order(&self, object: &Object) -> std::result::Result<Option<Vec<usize>>, AllocError> {
        Ok(Some(sorted_positions(self.alloc, object)?))
    }

    ghost style_law = { λ _. IsStyle-sorted };
}

/// The positions of the object's entries, in the order of their keys.
fn sorted_positions(alloc: Global, object: &Object) -> std::result::Result<Vec<usize>, AllocError>
    ensures { IfOk result (λ positions. IsAnswer sorted_style (keys_of (entries_of object.now))
        (Some positions)) }
{
    let keys = keys_in_order(alloc, object)?;
    let mut positions = Vec::new(alloc);
    for position in 0..keys.len() {
        positions.push(position)?;
    }
    positions.sort_by_key(
        |position|
            ensures { result ≡ slice_get keys.entry.items position.now }
        { keys.get(*position).copied() },
    )?;
    Ok(positions)
}

/// The keys, in the order of the entries: not sorted.
fn keys_in_order<'a>(
    alloc: Global,
    object: &'a Object,
) -> std::result::Result<Vec<&'a str>, AllocError>
    ensures { IfOk result (λ keys. map (λ key. key.now) keys.items
        ≡ keys_of (entries_of object.now)) }
{
    let mut keys = Vec::new(alloc);
    for (key, _) in object.iter() {
        keys.push(key)?;
    }
    Ok(keys)
}
