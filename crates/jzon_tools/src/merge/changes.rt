//! The merge patch that turns one value into another.
//!
//! `members`, `member` and `nested` call one another; proofs/merge/changes/+diff says what gets
//! smaller: the size of the new value.

ghost use Rattle.std.specs.Prelude.{◌≡◌, [], false, true, IfOk, IfSome, IsOkUnless, None, Ok, option_map};
ghost use Rattle.jzon.specs.Entries.{entries_of};
ghost use Rattle.jzon.specs.Readers.{entries, is_object, or_null};
ghost use Rattle.jzon.specs.View.{view, view_object, viewed};
ghost use Rattle.jzon_tools.specs.MergeDiff.{AddsChange, MergesInto, NoneChanges, NoneMergesInto, Removes};

use jzon::object::Object;
use jzon::{Error, JsonValue, Result};
use std::alloc::Global;

/// A merge patch (RFC 7396) that turns the old value into one that is equal to the new one: `{}` if
/// both are equal objects. `None` if there is no such patch, since null removes: where the new value
/// has a member that is null, below objects alone, and the old one doesn't have it there.
///
/// Takes time in proportion to both values, and memory for the patch. Goes as deep as the new value.
///
/// ```rust
/// let patch = merge::diff(alloc, &old, &new)?;
/// if let Some(patch) = &patch {
///     merge_patch(alloc, &mut old, patch)?; // old == new
/// }
/// ```
pub fn diff(alloc: Global, old: &JsonValue, new: &JsonValue) -> Result<Option<JsonValue>>
    ensures patch { IfOk result (λ o. IfSome o (λ p. MergesInto (view old.now) (view new.now) (view p))) }
    ensures none { IfOk result (λ o. o ≡ None → NoneMergesInto (view old.now) (view new.now)) }
    ensures memory { IsOkUnless result Error.OutOfMemory }
{
    let JsonValue::Object(to) = new else {
        return Ok(Some(new.clone(alloc)?));
    };
    let none = Object::new(alloc);
    match members(alloc, object_of(Some(old), &none), to)? {
        Some(patch) => Ok(Some(JsonValue::Object(patch))),
        None => Ok(None),
    }
}

/// The object that a value is. Any other, or none, counts as `none`, as in a merge: one without
/// entries.
#[tactic(auto, using(crate::proofs::Merges::merges))]
fn object_of<'v>(value: Option<&'v JsonValue>, none: &'v Object) -> &'v Object
    requires { entries_of none.now ≡ [] }
    ensures { viewed (entries_of result.now) ≡ entries (or_null (option_map (λ v. view v.now) value.entry)) }
{
    match value {
        Some(JsonValue::Object(object)) => object,
        _ => none,
    }
}

fn has_object(value: Option<&JsonValue>) -> bool
    ensures { result ≡ is_object (or_null (option_map (λ v. view v.now) value.entry)) }
{
    match value {
        Some(value) => value.is_object(),
        None => false,
    }
}

/// The members of a patch from one object to another, or `None` if there is no such patch.
#[cycle(diff)]
fn members(alloc: Global, from: &Object, to: &Object) -> Result<Option<Object>>
    ensures patch { IfOk result (λ o. IfSome o (λ p.
        MergesInto (view_object from.now) (view_object to.now) (view_object p))) }
    ensures none { IfOk result (λ o. o ≡ None
        → NoneMergesInto (view_object from.now) (view_object to.now)) }
    ensures memory { IsOkUnless result Error.OutOfMemory }
{
    // For the proof: the contract of `len` says that no key repeats.
    let _known = from.len().max(to.len());
    let mut patch = removed(alloc, from, to)?;
    for (key, value) in to.iter() {
        if !member(alloc, &mut patch, key, from.get(key), value)? {
            return Ok(None);
        }
    }
    Ok(Some(patch))
}

/// A patch with null for each member that the new object hasn't.
fn removed(alloc: Global, from: &Object, to: &Object) -> Result<Object>
    ensures ok { IfOk result (λ p. Removes (viewed (entries_of from.now))
        (viewed (entries_of to.now)) (viewed (entries_of p))) }
    ensures memory { IsOkUnless result Error.OutOfMemory }
{
    let mut patch = Object::new(alloc);
    for key in from.keys() {
        if !to.contains_key(key) {
            patch.insert(alloc, key, JsonValue::Null)?;
        }
    }
    Ok(patch)
}

/// Adds to the patch what changes a member, if it has to be changed. False if no patch can.
#[cycle(diff)]
fn member(
    alloc: Global,
    patch: &mut Object,
    key: &str,
    old: Option<&JsonValue>,
    new: &JsonValue,
) -> Result<bool>
    ensures ok { result ≡ Ok true → AddsChange key.now (option_map (λ v. view v.now) old.entry)
        (view new.now) (viewed (entries_of patch.old)) (viewed (entries_of patch.new)) }
    ensures none { result ≡ Ok false → NoneChanges (option_map (λ v. view v.now) old.entry) (view new.now) }
    ensures memory { IsOkUnless result Error.OutOfMemory }
{
    match new {
        JsonValue::Object(to) => nested(alloc, patch, key, old, to),
        _ => leaf(alloc, patch, key, old, new),
    }
}

/// Adds what changes a member to a new value that is no object, if it differs. False of a null
/// then: a patch's null removes.
fn leaf(
    alloc: Global,
    patch: &mut Object,
    key: &str,
    old: Option<&JsonValue>,
    new: &JsonValue,
) -> Result<bool>
    requires { is_object (view new.now) ≡ false }
    ensures ok { result ≡ Ok true → AddsChange key.now (option_map (λ v. view v.now) old.entry)
        (view new.now) (viewed (entries_of patch.old)) (viewed (entries_of patch.new)) }
    ensures none { result ≡ Ok false → NoneChanges (option_map (λ v. view v.now) old.entry) (view new.now) }
    ensures memory { IsOkUnless result Error.OutOfMemory }
{
    if let Some(old) = old {
        if old == new {
            return Ok(true);
        }
    }
    if new.is_null() {
        return Ok(false);
    }
    patch.insert(alloc, key, new.clone(alloc)?)?;
    Ok(true)
}

/// Adds what changes a member to a new object.
#[cycle(diff)]
fn nested(
    alloc: Global,
    patch: &mut Object,
    key: &str,
    old: Option<&JsonValue>,
    to: &Object,
) -> Result<bool>
    ensures ok { result ≡ Ok true → AddsChange key.now (option_map (λ v. view v.now) old.entry)
        (view_object to.now) (viewed (entries_of patch.old)) (viewed (entries_of patch.new)) }
    ensures none { result ≡ Ok false
        → NoneChanges (option_map (λ v. view v.now) old.entry) (view_object to.now) }
    ensures memory { IsOkUnless result Error.OutOfMemory }
{
    let none = Object::new(alloc);
    let Some(change) = members(alloc, object_of(old, &none), to)? else {
        return Ok(false);
    };
    // An empty change keeps an object. In place of any other value it makes an empty object.
    if change.is_empty() && has_object(old) {
        return Ok(true);
    }
    patch.insert(alloc, key, JsonValue::Object(change))?;
    Ok(true)
}
