//! Copies of values with the keys of each object sorted by their bytes.

ghost use Rattle.std.specs.Prelude.{◌≡◌, IfOk, IsOkUnless, OnErr, OnOk, map};
ghost use Rattle.std.specs.Cmp.Lexicographic.{slice_cmp};
ghost use Rattle.std.specs.List.Sorted.{IsPermutation, IsStrictlySortedBy};
ghost use Rattle.std.specs.Ordering.{nat_cmp};
ghost use Rattle.jzon.specs.Entries.{entries_of};
ghost use Rattle.jzon.specs.PairList.{keys_of};
ghost use Rattle.jzon.specs.View.{view, view_pairs};
ghost use Rattle.jzon_tools.specs.Canonical.{arranged_pairs, pointed, sorted_keys};

use jzon::object::Object;
use jzon::{Error, JsonValue, Result};
use std::alloc::{AllocError, Global};

/// A copy of the value with sorted keys, at every depth. Numbers keep their parts, and strings how
/// they are stored.
#[cycle(sorted)]
#[tactic(auto, using(crate::proofs::Views::views))]
pub fn sorted(alloc: Global, value: &JsonValue) -> Result<JsonValue>
    ensures sorted { IfOk result (λ copy. view copy ≡ sorted_keys (view value.now)) }
    ensures memory { IsOkUnless result Error.OutOfMemory }
{
    match value {
        JsonValue::Array(items) => Ok(JsonValue::Array(sorted_items(alloc, items)?)),
        JsonValue::Object(object) => Ok(JsonValue::Object(sorted_object(alloc, object)?)),
        _ => value.clone(alloc),
    }
}

/// Sorts the keys of each object in the value by their bytes, at every depth. The value is copied
/// meanwhile, so that a failed allocation changes nothing.
pub fn sort_keys(alloc: Global, value: &mut JsonValue) -> Result<()>
    ensures ok { OnOk result (view value.new ≡ sorted_keys (view value.old)) }
    ensures err { OnErr result (value.new ≡ value.old) }
    ensures memory { IsOkUnless result Error.OutOfMemory }
{
    *value = sorted(alloc, value)?;
    Ok(())
}

/// Copies of the elements, with sorted keys.
#[cycle(sorted)]
fn sorted_items(alloc: Global, items: &[JsonValue]) -> Result<Vec<JsonValue>>
    ensures copy { IfOk result (λ copies. map view copies.items
        ≡ map sorted_keys (map view items.now)) }
    ensures memory { IsOkUnless result Error.OutOfMemory }
{
    let mut copies = Vec::with_capacity(alloc, items.len())?;
    for item in items {
        copies.push(sorted(alloc, item)?)?;
    }
    Ok(copies)
}

/// A copy with sorted keys, at every depth.
#[cycle(sorted)]
fn sorted_object(alloc: Global, object: &Object) -> Result<Object>
    ensures copy { IfOk result (λ copy. view_pairs (entries_of copy)
        ≡ arranged_pairs (λ v. v) (view_pairs (entries_of object.now))) }
    ensures memory { IsOkUnless result Error.OutOfMemory }
{
    let entries = sorted_entries(alloc, object)?;
    let mut copy = Object::with_capacity(alloc, entries.len())?;
    for (key, value) in &entries {
        copy.insert(alloc, key, sorted(alloc, value)?)?;
    }
    Ok(copy)
}

/// The entries of the object, sorted by their keys: strictly, because no key repeats.
pub(super) fn sorted_entries<'a>(
    alloc: Global,
    object: &'a Object,
) -> std::result::Result<Vec<(&'a str, &'a JsonValue)>, AllocError>
    ensures same { IfOk result (λ entries. IsPermutation (entries_of object.now)
        (map pointed entries.items)) }
    ensures sorted { IfOk result (λ entries. IsStrictlySortedBy (slice_cmp nat_cmp)
        (keys_of (map pointed entries.items))) }
{
    let mut entries = Vec::with_capacity(alloc, object.len())?;
    for (key, value) in object {
        entries.push((key, value))?;
    }
    entries.sort_by_key(
        |entry|
            ensures { result ≡ entry.now.0 }
        { entry.0 },
    )?;
    Ok(entries)
}
