//! How deep a value nests, and how much it weighs, about the bytes of a copy, up to a limit: each
//! call ends where the value passes it.

ghost use Rattle.std.specs.Prelude.{◌≡◌, ◌+◌, ◌<◌, nat_le, nat_lt, map, true, None, IfSome};
ghost use Rattle.std.specs.List.{list_all};
ghost use Rattle.std.specs.Slice.Iter.{iter_rest};
ghost use Rattle.jzon.specs.Entries.{entries_of};
ghost use Rattle.jzon.specs.PairList.{values_of};
ghost use Rattle.jzon.specs.Value.{nest};
ghost use Rattle.jzon.specs.View.{view, view_pairs, view_values};
ghost use Rattle.jzon_tools.specs.Weight.{weight, weight_pairs, weight_values};

use jzon::JsonValue;
use jzon::object::Object;
use std::slice;

/// What each value weighs, beside the bytes of its string or keys.
const EACH: usize = 48;

/// Whether at most `depth` non-empty containers nest in the value.
#[cycle(nests)]
#[inline(always)]
#[tactic(auto, using(crate::proofs::WeightSteps::nesting))]
pub fn nests_within(value: &JsonValue, depth: usize) -> bool
    ensures { result ≡ nat_le (nest (view value.now)) depth }
{
    match value {
        JsonValue::Array(items) => all_nest_within(items.iter(), depth),
        JsonValue::Object(object) => all_nest_within(object.values(), depth),
        _ => true,
    }
}

/// Whether at most `depth` non-empty containers nest in one with these values: if there are any, it
/// counts as one itself.
#[cycle(nests)]
fn all_nest_within(values: slice::Iter<'_, JsonValue>, depth: usize) -> bool
    ensures { result ≡ list_all (λ v. nat_lt (nest v) depth) (map view (iter_rest values.entry)) }
{
    for value in values {
        if depth == 0 || !nests_within(value, depth - 1) {
            return false;
        }
    }
    true
}

/// What is left of `room` after the weight of the value, or `None` if it weighs more, or if more
/// than `depth` non-empty containers nest in it.
#[cycle(weigh)]
#[inline(always)]
#[tactic(auto, using(crate::proofs::WeightSteps::nesting))]
pub fn weigh(value: &JsonValue, depth: usize, room: usize) -> Option<usize>
    ensures some { IfSome result (λ left. left + weight (view value.now) ≡ room) }
    ensures depth { IfSome result (λ _. nat_le (nest (view value.now)) depth ≡ true) }
    ensures none { result ≡ None → nat_le (nest (view value.now)) depth ≡ true
        → room < weight (view value.now) }
{
    let room = room.checked_sub(EACH)?;
    match value {
        JsonValue::Short(text) => room.checked_sub(text.as_str().len()),
        JsonValue::String(text) => room.checked_sub(text.len()),
        JsonValue::Array(items) => weigh_items(items.iter(), depth, room),
        JsonValue::Object(object) => weigh_members(object, depth, room),
        _ => Some(room),
    }
}

/// What is left of `room` after the elements of an array, or `None` if they weigh more, or one
/// nests as deep as `depth`.
#[cycle(weigh)]
#[tactic(auto, using(crate::proofs::WeightSteps::nesting))]
fn weigh_items(items: slice::Iter<'_, JsonValue>, depth: usize, room: usize) -> Option<usize>
    ensures some { IfSome result (λ left.
        left + weight_values (view_values (iter_rest items.entry)) ≡ room) }
    ensures depth { IfSome result (λ _.
        list_all (λ v. nat_lt (nest v) depth) (map view (iter_rest items.entry)) ≡ true) }
    ensures none { result ≡ None
        → list_all (λ v. nat_lt (nest v) depth) (map view (iter_rest items.entry)) ≡ true
        → room < weight_values (view_values (iter_rest items.entry)) }
{
    let mut left = room;
    for item in items {
        left = weigh(item, depth.checked_sub(1)?, left)?;
    }
    Some(left)
}

/// What is left of `room` after keys and values, or `None` if they weigh more, or one nests as deep
/// as `depth`.
#[cycle(weigh)]
#[tactic(auto, using(crate::proofs::WeightSteps::nesting))]
fn weigh_members(object: &Object, depth: usize, room: usize) -> Option<usize>
    ensures some { IfSome result (λ left.
        left + weight_pairs (view_pairs (entries_of object.now)) ≡ room) }
    ensures depth { IfSome result (λ _.
        list_all (λ v. nat_lt (nest v) depth) (map view (values_of (entries_of object.now))) ≡ true) }
    ensures none { result ≡ None
        → list_all (λ v. nat_lt (nest v) depth) (map view (values_of (entries_of object.now))) ≡ true
        → room < weight_pairs (view_pairs (entries_of object.now)) }
{
    let mut left = room;
    for (key, value) in object.iter() {
        left = weigh(value, depth.checked_sub(1)?, left.checked_sub(key.len())?)?;
    }
    Some(left)
}
