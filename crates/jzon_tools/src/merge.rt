//! Merge patches (RFC 7396) and layers of a configuration: a value that says what changes in
//! another one.
//!
//! Both are `merged` of specs/Merge.antt, and differ at a null, which a merge patch drops with the
//! member (`drops_nulls`). The change is made in a copy, which then replaces the value: so an error
//! leaves the value as it was. `merge`, `merge_members` and `merge_member` call one another;
//! proofs/merge/+merge says what gets smaller: the size of the patch.
//!
//! If a patch removes many members, they are removed in one pass before its entries are merged:
//! removing one moves all that come after it.

ghost use Rattle.std.specs.Prelude.{◌≡◌, ◌≤◌, OnOk, OnErr, IsOkUnless, max, not, true, false};
ghost use Rattle.jzon.specs.Entries.{entries_of};
ghost use Rattle.jzon.specs.PairList.{find};
ghost use Rattle.jzon.specs.Value.{nest};
ghost use Rattle.jzon.specs.View.{view, viewed, view_pairs};
ghost use Rattle.jzon_tools.specs.Merge.{merged, merged_pairs, merged_pair};
ghost use Rattle.jzon_tools.specs.Private.Removals.{is_null_found};

mod changes;

pub use changes::diff;
use jzon::object::Object;
use jzon::{Error, JsonValue, Result};
use std::alloc::Global;

/// Up to how many members are removed one by one: a pass over all costs about as much.
const REMOVED_SINGLY: usize = 16;

/// Applies a merge patch (RFC 7396): an entry of the patch that is null removes the target's, any
/// other is put into it, and objects are merged at every depth. A patch that is no object replaces
/// the target. Takes the time and memory of a clone of both.
///
/// ```rust
/// merge_patch(alloc, &mut target, &patch)?;
/// ```
#[tactic(auto, using(crate::proofs::MergeDepth::merged_depth))]
pub fn merge_patch(alloc: Global, target: &mut JsonValue, patch: &JsonValue) -> Result<()>
    ensures ok { OnOk result (view target.new ≡ merged true (view target.old) (view patch.now)) }
    ensures depth { OnOk result
        (nest (view target.new) ≤ max (nest (view target.old)) (nest (view patch.now))) }
    ensures err { OnErr result (target.new ≡ target.old) }
    ensures memory { IsOkUnless result Error.OutOfMemory }
{
    let mut copy = target.clone(alloc)?;
    merge(alloc, &mut copy, patch, true)?;
    *target = copy;
    Ok(())
}

/// Puts the entries of a later layer over those of a base, at every depth; one that is no object
/// replaces the base. Null is a value. Takes the time and memory of a clone of both.
#[tactic(auto, using(crate::proofs::MergeDepth::merged_depth))]
pub fn layer(alloc: Global, base: &mut JsonValue, later: &JsonValue) -> Result<()>
    ensures ok { OnOk result (view base.new ≡ merged false (view base.old) (view later.now)) }
    ensures depth { OnOk result
        (nest (view base.new) ≤ max (nest (view base.old)) (nest (view later.now))) }
    ensures err { OnErr result (base.new ≡ base.old) }
    ensures memory { IsOkUnless result Error.OutOfMemory }
{
    let mut copy = base.clone(alloc)?;
    merge(alloc, &mut copy, later, false)?;
    *base = copy;
    Ok(())
}

/// Merges a patch into the target itself, which after an error may be merged in part.
#[cycle(merge)]
#[tactic(auto, using(crate::proofs::Merges::merges))]
fn merge(alloc: Global, target: &mut JsonValue, patch: &JsonValue, drops_nulls: bool) -> Result<()>
    ensures ok { OnOk result
        (view target.new ≡ merged drops_nulls (view target.old) (view patch.now)) }
    ensures memory { IsOkUnless result Error.OutOfMemory }
{
    let JsonValue::Object(members) = patch else {
        *target = patch.clone(alloc)?;
        return Ok(());
    };
    match target {
        JsonValue::Object(object) => merge_members(alloc, object, members, drops_nulls),
        // Any other target counts as an empty object.
        _ => {
            let mut object = Object::new(alloc);
            merge_members(alloc, &mut object, members, drops_nulls)?;
            *target = JsonValue::Object(object);
            Ok(())
        }
    }
}

#[cycle(merge)]
#[tactic(auto, using(crate::proofs::Merges::merges))]
fn merge_members(
    alloc: Global,
    object: &mut Object,
    members: &Object,
    drops_nulls: bool,
) -> Result<()>
    ensures ok { OnOk result (viewed (entries_of object.new) ≡ merged_pairs drops_nulls
        (viewed (entries_of object.old)) (view_pairs (entries_of members.now))) }
    ensures memory { IsOkUnless result Error.OutOfMemory }
{
    remove_nulls(object, members, drops_nulls);
    for (key, value) in members.iter() {
        merge_member(alloc, object, key, value, drops_nulls)?;
    }
    Ok(())
}

/// Removes the members whose key has null in the patch, if nulls are dropped and are many. What the
/// merge makes of the object stays the same.
fn remove_nulls(object: &mut Object, members: &Object, drops_nulls: bool)
    ensures { merged_pairs drops_nulls (viewed (entries_of object.new)) (view_pairs (entries_of members.now))
        ≡ merged_pairs drops_nulls (viewed (entries_of object.old)) (view_pairs (entries_of members.now)) }
{
    if !drops_nulls || !has_many_nulls(members) {
        return;
    }
    // For the proof: the contract of `len` says that no key repeats.
    let _known = object.len().max(members.len());
    object.retain(
        |key: &str, value: &mut JsonValue| -> bool
            ensures { (result ≡ not (is_null_found (find key.now
                (viewed (entries_of members.entry.now)))))
                × (value.new ≡ value.old) }
        { !is_null_at(members, key) },
    );
}

/// Whether a patch has more than `REMOVED_SINGLY` nulls. Only the time of a merge depends on it.
fn has_many_nulls(members: &Object) -> bool {
    members.values().filter(|value| value.is_null()).count() > REMOVED_SINGLY
}

#[tactic(auto, using(crate::proofs::Merges::merges))]
fn is_null_at(members: &Object, key: &str) -> bool
    ensures { result ≡ is_null_found (find key.now (viewed (entries_of members.now))) }
{
    match members.get(key) {
        Some(value) => value.is_null(),
        None => false,
    }
}

/// Merges one member of a patch into an object. If the object has no such key, the value is merged
/// into null and not cloned, because nulls inside it are dropped too.
#[cycle(merge)]
#[tactic(auto, using(crate::proofs::Merges::merges))]
fn merge_member(
    alloc: Global,
    object: &mut Object,
    key: &str,
    value: &JsonValue,
    drops_nulls: bool,
) -> Result<()>
    ensures ok { OnOk result (viewed (entries_of object.new)
        ≡ merged_pair drops_nulls (viewed (entries_of object.old)) key.now (view value.now)) }
    ensures memory { IsOkUnless result Error.OutOfMemory }
{
    if drops_nulls && value.is_null() {
        object.remove(key);
        return Ok(());
    }
    if let Some(member) = object.get_mut(key) {
        return merge(alloc, member, value, drops_nulls);
    }
    let mut new = JsonValue::Null;
    merge(alloc, &mut new, value, drops_nulls)?;
    object.insert(alloc, key, new)
}
