//! Changes at a JSON pointer.
//!
//! A change goes down by `change_at`, a recursion, since a contract can say what a closure leaves
//! inside a value, but not what is written through a returned reference. Where it finds nothing,
//! nothing was changed, and `seek` then says why.

ghost use Rattle.std.specs.Prelude.{◌≡◌, ◌≤◌, ◌<◌, ◌+◌, ◌-◌, ◌^◌, ◌⊎◌, ◌∷◌, ℕ, max, nat_le, List, OnOk, OnErr, IfOk, IfErr, IfSome, IsErr, Ok, Err, None, Some, map, option_map};
ghost use Rattle.std.specs.Fn.{FnOnceReturnsAtMut};
ghost use Rattle.std.specs.Option.{option_copied};
ghost use Rattle.jzon.specs.JsonValue.{JsonValue as Json};
ghost use Rattle.jzon.specs.Value.{Value, array, nest, values_of};
ghost use Rattle.jzon.specs.View.{view, view_object};
ghost use Rattle.jzon_pointer.specs.Errors.{memory, IsLost, SaysOrMemory};
ghost use Rattle.jzon_pointer.specs.Pointer.{child_of, entry_at, inserted_at, new_index, removed_at, slashes, tokens_left, updated_at, value_at, with_new, without, ChangesAt, IsLast, LacksAt};
ghost use Rattle.jzon_pointer.specs.declared.error.What.TheVariants as what;
ghost use Rattle.jzon_tools.specs.Patch.{shifted_at, shifted_new, shifted_out};
ghost use Rattle.jzon_tools.specs.declared.edit.Refused.TheVariants.{Lost, OutOfMemory, TooMany};
ghost use Rattle.jzon_tools.specs.declared.edit.Unplaced.TheVariants as unplaced;
ghost use Rattle.jzon_tools.specs.declared.edit.Unremoved.TheVariants as unremoved;

use crate::weight;
use jzon::JsonValue;
use jzon::object::Object;
use jzon_pointer::error::{Error, What};
use jzon_pointer::token::{after_slash, first_token, index_of, is_plain, key_of, position_of};
use jzon_pointer::{PointerError, seek};
use std::alloc::{AllocError, AllocFailed, Global};

/// Calls `change` with the value that a pointer names, and returns what it returns. After an error
/// it wasn't called.
///
/// ```rust
/// edit::update(alloc, &mut config, "/servers/0/port", |port| {
///     *port = JsonValue::from(81u16);
/// })?;
/// ```
pub fn update<R, F: FnOnce(&mut JsonValue) -> R>(
    alloc: Global,
    value: &mut JsonValue,
    path: &str,
    change: F,
) -> Result<R, Error>
    requires { F.IsAlwaysCallable change }
    ensures ok { IfOk result (λ r. (old : Json) × (new : Json)
        × FnOnceReturnsAtMut F.FnOnce change old r new
        × (value_at (view value.old) path.now ≡ Ok (view old))
        × (updated_at (λ _. Some (view new)) (view value.old) path.now ≡ Some (view value.new))) }
    ensures err { OnErr result (view value.new ≡ view value.old) }
    ensures error { IfErr result (IsLost (value_at (view value.old) path.now) path.now) }
{
    match update_at(value, path, change) {
        Ok(changed) => Ok(changed),
        Err(error) => Err(lost(alloc, path, error)),
    }
}

/// Puts a new value in the place of the one that a pointer names, and returns the old one.
/// `nests_within` says beforehand whether the new one is too deep there.
pub fn replace(
    alloc: Global,
    value: &mut JsonValue,
    path: &str,
    new: JsonValue,
) -> Result<JsonValue, Error>
    ensures old { IfOk result (λ old. value_at (view value.old) path.now ≡ Ok (view old)) }
    ensures new { OnOk result (updated_at (λ _. Some (view new)) (view value.old) path.now
        ≡ Some (view value.new)) }
    ensures depth { OnOk result (nest (view value.new)
        ≤ max (nest (view value.old)) (slashes path.now + nest (view new))) }
    ensures err { OnErr result (view value.new ≡ view value.old) }
    ensures error { IfErr result (IsLost (value_at (view value.old) path.now) path.now) }
{
    match replace_at(value, path, new) {
        Ok(old) => Ok(old),
        Err(error) => Err(lost(alloc, path, error)),
    }
}

/// Inserts a new value at a pointer, as `add` of RFC 6902 does: into an object, or into an array,
/// before the element of this index. At `-`, and at the array's length, it becomes the last element.
///
/// **A key that is present is overwritten**: its old value is dropped. An array's elements from the
/// index on move up. Below a stranger's pointer a value may become too deep: ask `nests_within` before.
pub fn insert(alloc: Global, value: &mut JsonValue, path: &str, new: JsonValue) -> Result<(), Error>
    ensures ok { OnOk result (inserted_at (view new) (view value.old) path.now
        ≡ Some (view value.new)) }
    ensures depth { OnOk result (nest (view value.new)
        ≤ max (nest (view value.old)) (slashes path.now + nest (view new))) }
    ensures err { OnErr result (view value.new ≡ view value.old) }
    ensures error { IfErr result (λ e. (e ≡ memory)
        ⊎ ((inserted_at (view new) (view value.old) path.now ≡ None)
        × IsLost (entry_at (view value.old) path.now) path.now e)) }
{
    match insert_at(alloc, value, path, new, usize::MAX) {
        Ok(_left) => Ok(()),
        Err(Refused::Lost(error)) => Err(lost(alloc, path, error)),
        Err(Refused::OutOfMemory) => Err(Error::MEMORY),
        // No array is so long.
        Err(Refused::TooMany) => unreachable!(),
    }
}

/// Whether a new value at a pointer, with the containers around it, nests at most so deep: with 512 what
/// `parse` reads back. Looks at no more of the value than that.
///
/// ```rust
/// if edit::nests_within(path, &new, 512) {
///     edit::insert(alloc, &mut config, path, new)?;
/// }
/// ```
pub fn nests_within(path: &str, new: &JsonValue, depth: usize) -> bool
    ensures { result ≡ nat_le (slashes path.now + nest (view new.now)) depth }
{
    let around = slashes(path);
    around <= depth && weight::nests_within(new, depth - around)
}

/// How many tokens a pointer has: so many containers are around what it names.
pub(crate) fn slashes(path: &str) -> usize
    ensures { result ≡ slashes path.now }
{
    path.bytes().filter(|byte| *byte == b'/').count()
}

/// Removes the entry or the element that a pointer names, and returns its value.
pub fn remove(alloc: Global, value: &mut JsonValue, path: &str) -> Result<JsonValue, Error>
    ensures old { IfOk result (λ old. entry_at (view value.old) path.now ≡ Ok (view old)) }
    ensures new { OnOk result (removed_at (view value.old) path.now ≡ Some (view value.new)) }
    ensures err { OnErr result (view value.new ≡ view value.old) }
    ensures error { IfErr result (IsLost (entry_at (view value.old) path.now) path.now) }
{
    match remove_at(value, path, usize::MAX) {
        Ok((old, _left)) => Ok(old),
        Err(Refused::Lost(error)) => Err(lost(alloc, path, error)),
        // Nothing is allocated, and no container is so long.
        Err(Refused::OutOfMemory | Refused::TooMany) => unreachable!(),
    }
}

/// The error of a pointer that names nothing.
#[cold]
fn lost(alloc: Global, path: &str, error: PointerError) -> Error
    ensures { SaysOrMemory result (Some (what.Pointer error)) path.now None None None }
{
    Error::at_pointer(alloc, path, What::Pointer(error))
}

/// Why nothing was inserted, or removed.
#[derive(Clone, Copy)]
pub(crate) enum Refused {
    /// The pointer names no place for a new value, or no value.
    Lost(PointerError),
    OutOfMemory,
    /// More elements or entries would be shifted than there is room for.
    TooMany,
}

impl From<PointerError> for Refused {
    ghost from_gives = { λ e r. r ≡ Lost e };

    fn from(error: PointerError) -> Refused {
        Refused::Lost(error)
    }
}

/// `update` with an error that doesn't own the pointer, so without an allocator.
fn update_at<R, F: FnOnce(&mut JsonValue) -> R>(
    value: &mut JsonValue,
    path: &str,
    change: F,
) -> Result<R, PointerError>
    requires { F.IsAlwaysCallable change }
    ensures ok { IfOk result (λ r. (old : Json) × (new : Json)
        × FnOnceReturnsAtMut F.FnOnce change old r new
        × (value_at (view value.old) path.now ≡ Ok (view old))
        × (updated_at (λ _. Some (view new)) (view value.old) path.now ≡ Some (view value.new))) }
    ensures err { OnErr result (view value.new ≡ view value.old) }
    ensures error { IfErr result (λ e. value_at (view value.old) path.now ≡ Err e) }
{
    let left = after_slash(path)?;
    match change_at(value, left, change) {
        Some(changed) => Ok(changed),
        None => Err(why_none(value, path)),
    }
}

/// `replace` with an error that doesn't own the pointer, so without an allocator.
pub(crate) fn replace_at(
    value: &mut JsonValue,
    path: &str,
    new: JsonValue,
) -> Result<JsonValue, PointerError>
    ensures old { IfOk result (λ old. value_at (view value.old) path.now ≡ Ok (view old)) }
    ensures new { OnOk result (updated_at (λ _. Some (view new)) (view value.old) path.now
        ≡ Some (view value.new)) }
    ensures depth { OnOk result (nest (view value.new)
        ≤ max (nest (view value.old)) (slashes path.now + nest (view new))) }
    ensures err { OnErr result (view value.new ≡ view value.old) }
    ensures error { IfErr result (λ e. value_at (view value.old) path.now ≡ Err e) }
{
    update_at(value, path, |place| std::mem::replace(place, new))
}

/// `insert` with an error that doesn't own the pointer, if at most `room` elements are shifted.
/// Returns what is left of `room`. Where no value can be put there is none either, so `seek` finds why.
pub(crate) fn insert_at(
    alloc: Global,
    value: &mut JsonValue,
    path: &str,
    new: JsonValue,
    room: usize,
) -> Result<usize, Refused>
    ensures ok { OnOk result (inserted_at (view new) (view value.old) path.now
        ≡ Some (view value.new)) }
    ensures depth { OnOk result (nest (view value.new)
        ≤ max (nest (view value.old)) (slashes path.now + nest (view new))) }
    ensures left { IfOk result (λ left. left + shifted_at shifted_new (view value.old) path.now
        ≡ room) }
    ensures err { OnErr result (view value.new ≡ view value.old) }
    ensures error { IfErr result (λ e. (e ≡ OutOfMemory) ⊎ ((e ≡ TooMany)
        ⊎ ((lost : PointerError) × (e ≡ Lost lost)
        × (inserted_at (view new) (view value.old) path.now ≡ None)
        × (entry_at (view value.old) path.now ≡ Err lost)))) }
    ensures many { IfErr result (λ e. e ≡ TooMany
        → room < shifted_at shifted_new (view value.old) path.now) }
    ensures most { IfErr result (λ e. e ≡ TooMany → room < 2 ^ 64 - 1) }
{
    let (left, token) = split_last(path)?;
    match change_at(
        value,
        left,
        |place| insert_child(alloc, place, token, new, room),
    ) {
        Some(Ok(left)) => Ok(left),
        Some(Err(Unplaced::OutOfMemory)) => Err(Refused::OutOfMemory),
        Some(Err(Unplaced::TooMany)) => Err(Refused::TooMany),
        Some(Err(Unplaced::NoPlace)) => Err(Refused::Lost(why_none(value, path))),
        None => Err(Refused::Lost(why_none(value, path))),
    }
}

/// `remove` with an error that doesn't own the pointer, if at most `room` elements or entries are
/// shifted. Returns the value, and what is left of `room`.
pub(crate) fn remove_at(
    value: &mut JsonValue,
    path: &str,
    room: usize,
) -> Result<(JsonValue, usize), Refused>
    ensures old { IfOk result (λ r. entry_at (view value.old) path.now ≡ Ok (view r.0)) }
    ensures new { OnOk result (removed_at (view value.old) path.now ≡ Some (view value.new)) }
    ensures left { IfOk result (λ r. r.1 + shifted_at shifted_out (view value.old) path.now
        ≡ room) }
    ensures err { OnErr result (view value.new ≡ view value.old) }
    ensures error { IfErr result (λ e. (e ≡ TooMany) ⊎ ((lost : PointerError) × (e ≡ Lost lost)
        × (entry_at (view value.old) path.now ≡ Err lost))) }
    ensures many { IfErr result (λ e. e ≡ TooMany
        → room < shifted_at shifted_out (view value.old) path.now) }
    ensures most { IfErr result (λ e. e ≡ TooMany → room < 2 ^ 64 - 1) }
{
    let (left, token) = split_last(path)?;
    match change_at(value, left, |place| remove_child(place, token, room)) {
        Some(Ok(taken)) => Ok(taken),
        Some(Err(Unremoved::TooMany)) => Err(Refused::TooMany),
        Some(Err(Unremoved::NoChild)) => Err(Refused::Lost(why_none(value, path))),
        None => Err(Refused::Lost(why_none(value, path))),
    }
}

/// The text of the tokens before the last, as `after_slash` returns it, and the last token.
fn split_last(path: &str) -> Result<(Option<&str>, &str), PointerError>
    ensures last { IfOk result (λ r. IsLast path.now (tokens_left (option_copied r.0)) r.1.now) }
    ensures error { IfErr result (λ e. (v : Value) → entry_at v path.now ≡ Err e) }
    ensures nothing { IfErr result (λ _. (w v : Value) → inserted_at w v path.now ≡ None) }
{
    let Some((parent, token)) = path.rsplit_once('/') else {
        return Err(no_parent(path));
    };
    let left = after_slash(parent)?;
    Ok((left, token))
}

/// Why a pointer without a slash has no last token.
fn no_parent(path: &str) -> PointerError
    requires { (rest : List ℕ) → path.now ≡ 47 ∷ rest → ⊥ }
    ensures { (v : Value) → entry_at v path.now ≡ Err result }
{
    if path.is_empty() {
        PointerError::WholeValue
    } else {
        PointerError::NoSlash
    }
}

/// Why a pointer names nothing. By the requirement `seek` finds no value, so `WholeValue` isn't
/// returned.
fn why_none(value: &JsonValue, path: &str) -> PointerError
    requires { IsErr (value_at (view value.now) path.now) }
    ensures { value_at (view value.now) path.now ≡ Err result }
{
    match seek(value, path) {
        Ok(_found) => PointerError::WholeValue,
        Err(error) => error,
    }
}

/// Calls `change` with the value at the tokens that are left of a pointer, if there is one.
#[cycle(change)]
#[tactic(auto, using(jzon_pointer::proofs::PlaceSteps::placing))]
fn change_at<R, F: FnOnce(&mut JsonValue) -> R>(
    value: &mut JsonValue,
    left: Option<&str>,
    change: F,
) -> Option<R>
    requires { F.IsAlwaysCallable change }
    ensures found { IfSome result (λ r. (old : Json) × (new : Json)
        × FnOnceReturnsAtMut F.FnOnce change old r new
        × ChangesAt (view value.old) (tokens_left (option_copied left.entry)) (view old) (view new)
        (view value.new)) }
    ensures missing { result ≡ None
        → LacksAt (view value.old) (tokens_left (option_copied left.entry)) (view value.new) }
{
    let Some(text) = left else {
        return Some(change(value));
    };
    let (token, rest) = first_token(text);
    match value {
        JsonValue::Array(items) => change_element(items, token, rest, change),
        JsonValue::Object(object) => change_member(object, token, rest, change),
        _ => None,
    }
}

/// As `change_at`, of the elements of an array: the token names one.
#[cycle(change)]
#[tactic(auto, using(jzon_pointer::proofs::PlaceSteps::placing))]
fn change_element<R, F: FnOnce(&mut JsonValue) -> R>(
    items: &mut Vec<JsonValue>,
    token: &str,
    rest: Option<&str>,
    change: F,
) -> Option<R>
    requires { F.IsAlwaysCallable change }
    ensures found { IfSome result (λ r. (old : Json) × (new : Json)
        × FnOnceReturnsAtMut F.FnOnce change old r new
        × ChangesAt (array (values_of (map view items.old.items)))
        (token.now ∷ tokens_left (option_copied rest.entry)) (view old) (view new)
        (array (values_of (map view items.new.items)))) }
    ensures missing { result ≡ None → LacksAt (array (values_of (map view items.old.items)))
        (token.now ∷ tokens_left (option_copied rest.entry))
        (array (values_of (map view items.new.items))) }
{
    let index = index_of(token)?;
    let item = items.get_mut(index)?;
    change_at(item, rest, change)
}

/// As `change_at`, of the values of an object: the token names a key.
#[cycle(change)]
#[tactic(auto, using(jzon_pointer::proofs::PlaceSteps::placing))]
fn change_member<R, F: FnOnce(&mut JsonValue) -> R>(
    object: &mut Object,
    token: &str,
    rest: Option<&str>,
    change: F,
) -> Option<R>
    requires { F.IsAlwaysCallable change }
    ensures found { IfSome result (λ r. (old : Json) × (new : Json)
        × FnOnceReturnsAtMut F.FnOnce change old r new
        × ChangesAt (view_object object.old) (token.now ∷ tokens_left (option_copied rest.entry))
        (view old) (view new) (view_object object.new)) }
    ensures missing { result ≡ None → LacksAt (view_object object.old)
        (token.now ∷ tokens_left (option_copied rest.entry)) (view_object object.new) }
{
    let position = position_of(object, token)?;
    let member = object.get_index_mut(position)?;
    change_at(member, rest, change)
}

/// Why a value got no new child.
#[derive(Clone, Copy)]
enum Unplaced {
    /// It can have none of this name.
    NoPlace,
    OutOfMemory,
    /// More of its elements would be shifted than there is room for.
    TooMany,
}

/// The error of `Object::insert`, which fails with `OutOfMemory` only.
impl From<jzon::Error> for Unplaced {
    ghost from_gives = { λ _ u. u ≡ unplaced.OutOfMemory };

    fn from(_refused: jzon::Error) -> Unplaced {
        Unplaced::OutOfMemory
    }
}

impl From<AllocError> for Unplaced {
    ghost from_gives = { λ _ u. u ≡ unplaced.OutOfMemory };

    fn from(_refused: AllocError) -> Unplaced {
        Unplaced::OutOfMemory
    }
}

impl<T: Drop> From<AllocFailed<T>> for Unplaced {
    ghost from_gives = { λ _ u. u ≡ unplaced.OutOfMemory };

    fn from(_refused: AllocFailed<T>) -> Unplaced {
        Unplaced::OutOfMemory
    }
}

/// Inserts a child that a token names, if the value can have one of this name, and at most `room` elements
/// are shifted. Returns what is left of it.
#[tactic(auto, using(jzon_pointer::proofs::PlaceSteps::placing))]
fn insert_child(
    alloc: Global,
    value: &mut JsonValue,
    token: &str,
    new: JsonValue,
    room: usize,
) -> Result<usize, Unplaced>
    ensures ok { OnOk result (with_new (view new) (view value.old) token.now
        ≡ Some (view value.new)) }
    ensures left { IfOk result (λ left. left + shifted_new (view value.old) token.now ≡ room) }
    ensures err { OnErr result (view value.new ≡ view value.old) }
    ensures error { IfErr result (λ e. e ≡ unplaced.NoPlace
        → with_new (view new) (view value.old) token.now ≡ None) }
    ensures many { IfErr result (λ e. e ≡ unplaced.TooMany
        → room < shifted_new (view value.old) token.now) }
    ensures most { IfErr result (λ e. e ≡ unplaced.TooMany → room < 2 ^ 64 - 1) }
{
    match value {
        JsonValue::Array(items) => insert_element(items, token, new, room),
        JsonValue::Object(object) => {
            insert_member(alloc, object, token, new)?;
            Ok(room)
        }
        _ => Err(Unplaced::NoPlace),
    }
}

/// As `insert_child`, of an array.
fn insert_element(
    items: &mut Vec<JsonValue>,
    token: &str,
    new: JsonValue,
    room: usize,
) -> Result<usize, Unplaced>
    ensures ok { OnOk result (
        with_new (view new) (array (values_of (map view items.old.items))) token.now
        ≡ Some (array (values_of (map view items.new.items)))) }
    ensures left { IfOk result (λ left.
        left + shifted_new (array (values_of (map view items.old.items))) token.now ≡ room) }
    ensures err { OnErr result (array (values_of (map view items.new.items))
        ≡ array (values_of (map view items.old.items))) }
    ensures error { IfErr result (λ e. e ≡ unplaced.NoPlace
        → with_new (view new) (array (values_of (map view items.old.items))) token.now ≡ None) }
    ensures many { IfErr result (λ e. e ≡ unplaced.TooMany
        → room < shifted_new (array (values_of (map view items.old.items))) token.now) }
    ensures most { IfErr result (λ e. e ≡ unplaced.TooMany → room < 2 ^ 64 - 1) }
{
    let Some(index) = new_index(token, items.len()) else {
        return Err(Unplaced::NoPlace);
    };
    let Some(left) = room.checked_sub(items.len() - index) else {
        return Err(Unplaced::TooMany);
    };
    items.insert(index, new)?;
    Ok(left)
}

/// Puts a value under the key that a token names. A bad escape names none. No entry is shifted.
fn insert_member(
    alloc: Global,
    object: &mut Object,
    token: &str,
    new: JsonValue,
) -> Result<(), Unplaced>
    ensures ok { OnOk result (with_new (view new) (view_object object.old) token.now
        ≡ Some (view_object object.new)) }
    ensures err { OnErr result (view_object object.new ≡ view_object object.old) }
    ensures error { IfErr result (λ e. e ≡ unplaced.NoPlace
        → with_new (view new) (view_object object.old) token.now ≡ None) }
    ensures room { IfErr result (λ e. e ≡ unplaced.TooMany → ⊥) }
{
    if is_plain(token) {
        object.insert(alloc, token, new)?;
        return Ok(());
    }
    match key_of(alloc, token)? {
        Some(key) => {
            object.insert(alloc, key.as_str(), new)?;
            Ok(())
        }
        None => Err(Unplaced::NoPlace),
    }
}

/// The index before which a token puts a new element of an array of this length.
fn new_index(token: &str, len: usize) -> Option<usize>
    ensures index { result ≡ new_index token.now len }
    ensures within { IfSome result (λ index. index ≤ len) }
{
    if token == "-" {
        return Some(len);
    }
    let index = index_of(token)?;
    if index <= len { Some(index) } else { None }
}

/// Why a value lost no child.
#[derive(Clone, Copy)]
enum Unremoved {
    /// It has none of this name.
    NoChild,
    /// More of its elements or entries would be shifted than there is room for.
    TooMany,
}

/// Removes the child that a token names, if at most `room` elements or entries are shifted. Returns it, and
/// what is left of `room`.
#[tactic(auto, using(jzon_pointer::proofs::PlaceSteps::placing))]
fn remove_child(
    value: &mut JsonValue,
    token: &str,
    room: usize,
) -> Result<(JsonValue, usize), Unremoved>
    ensures old { IfOk result (λ r. child_of (view value.old) token.now ≡ Some (view r.0)) }
    ensures new { OnOk result (without (view value.old) token.now ≡ Some (view value.new)) }
    ensures left { IfOk result (λ r. r.1 + shifted_out (view value.old) token.now ≡ room) }
    ensures err { OnErr result (view value.new ≡ view value.old) }
    ensures error { IfErr result (λ e. e ≡ unremoved.NoChild
        → child_of (view value.old) token.now ≡ None) }
    ensures many { IfErr result (λ e. e ≡ unremoved.TooMany
        → room < shifted_out (view value.old) token.now) }
    ensures most { IfErr result (λ e. e ≡ unremoved.TooMany → room < 2 ^ 64 - 1) }
{
    match value {
        JsonValue::Array(items) => remove_element(items, token, room),
        JsonValue::Object(object) => remove_member(object, token, room),
        _ => Err(Unremoved::NoChild),
    }
}

/// As `remove_child`, of an array.
fn remove_element(
    items: &mut Vec<JsonValue>,
    token: &str,
    room: usize,
) -> Result<(JsonValue, usize), Unremoved>
    ensures old { IfOk result (λ r.
        child_of (array (values_of (map view items.old.items))) token.now ≡ Some (view r.0)) }
    ensures new { OnOk result (without (array (values_of (map view items.old.items))) token.now
        ≡ Some (array (values_of (map view items.new.items)))) }
    ensures left { IfOk result (λ r.
        r.1 + shifted_out (array (values_of (map view items.old.items))) token.now ≡ room) }
    ensures err { OnErr result (array (values_of (map view items.new.items))
        ≡ array (values_of (map view items.old.items))) }
    ensures error { IfErr result (λ e. e ≡ unremoved.NoChild
        → child_of (array (values_of (map view items.old.items))) token.now ≡ None) }
    ensures many { IfErr result (λ e. e ≡ unremoved.TooMany
        → room < shifted_out (array (values_of (map view items.old.items))) token.now) }
    ensures most { IfErr result (λ e. e ≡ unremoved.TooMany → room < 2 ^ 64 - 1) }
{
    let Some(index) = index_of(token) else {
        return Err(Unremoved::NoChild);
    };
    if index >= items.len() {
        return Err(Unremoved::NoChild);
    }
    let Some(left) = room.checked_sub(items.len() - index - 1) else {
        return Err(Unremoved::TooMany);
    };
    Ok((items.remove(index), left))
}

/// As `remove_child`, of an object: the index is numbered anew, so all entries are shifted.
fn remove_member(
    object: &mut Object,
    token: &str,
    room: usize,
) -> Result<(JsonValue, usize), Unremoved>
    ensures old { IfOk result (λ r. child_of (view_object object.old) token.now
        ≡ Some (view r.0)) }
    ensures new { OnOk result (without (view_object object.old) token.now
        ≡ Some (view_object object.new)) }
    ensures left { IfOk result (λ r. r.1 + shifted_out (view_object object.old) token.now ≡ room) }
    ensures err { OnErr result (view_object object.new ≡ view_object object.old) }
    ensures error { IfErr result (λ e. e ≡ unremoved.NoChild
        → child_of (view_object object.old) token.now ≡ None) }
    ensures many { IfErr result (λ e. e ≡ unremoved.TooMany
        → room < shifted_out (view_object object.old) token.now) }
    ensures most { IfErr result (λ e. e ≡ unremoved.TooMany → room < 2 ^ 64 - 1) }
{
    let Some(position) = position_of(object, token) else {
        return Err(Unremoved::NoChild);
    };
    let Some(left) = room.checked_sub(object.len()) else {
        return Err(Unremoved::TooMany);
    };
    match object.shift_remove_index(position) {
        Some((_key, old)) => Ok((old, left)),
        None => Err(Unremoved::NoChild),
    }
}
