//! JSON Patch (RFC 6902): a list of operations that add, remove, replace, move, copy and test what
//! JSON pointers name.
//!
//! `applied` of specs/Patch.antt says what a patch makes of a value, `IsErrorOf` what an error says,
//! `first_undone` of which operation, and `IsCause` when each cause comes; `applied_within` has the
//! limits too. The operations change the value itself. It is cloned before the first operation that
//! may have to be undone, and the clone is put back after an error. A test needs none, and the last
//! operation only if it is a move: each other one fails without a change.

ghost use Rattle.std.specs.Prelude.{◌≡◌, ◌+◌, ◌<◌, ◌≤◌, ◌⊎◌, max, ℕ, List, [], OnOk, OnErr, IfOk, IfErr, IfSome, Err, None, Some, false, true, codes, option_and_then, option_map};
ghost use Rattle.std.specs.Option.{option_map_or};
ghost use Rattle.jzon.specs.Value.{Value, nest};
ghost use Rattle.jzon.specs.View.{view};
ghost use Rattle.jzon_tools.specs.Patch.{added_at, applied, applied_within, copied_by, deepened_at, depth_by, entry_of, has_value, is_below, is_deeper, is_within, left_after, moved_at, moved_by, name_of, operated, operated_by, pointer_in, shifted_at, shifted_by, shifted_in, shifted_move, shifted_new, shifted_out, tested_at, text_at, usual, value_of, IsBackup, IsCause, IsDone, IsErrorOf, IsLookup, IsText, Reports, Takes};
ghost use Rattle.jzon_tools.specs.Patch as meaning;
ghost use Rattle.jzon_tools.specs.Weight.{weight};
ghost use Rattle.jzon_pointer.specs.Pointer.{entry_at, removed_at, updated_at, slashes};
ghost use Rattle.jzon_pointer.specs.declared.error.parts.Cause.TheVariants as causes;
ghost use Rattle.jzon_pointer.specs.declared.error.parts.Member.TheVariants as members;
ghost use Rattle.jzon_tools.specs.declared.patch.Fault.TheVariants.{Operation, OutOfMemory};
ghost use Rattle.jzon_tools.specs.declared.patch.Limits.{Limits as Within};
ghost use Rattle.jzon_tools.specs.declared.patch.Op.TheVariants as ops;

mod changes;

use crate::edit::{self, Refused};
use crate::weight::weigh;
pub use changes::diff;
use jzon::JsonValue;
use jzon_pointer::error::{Cause, Error, Member, What};
use jzon_pointer::{PointerError, seek};
use std::alloc::Global;

/// What the operations of a patch may make of a value. Its sender chooses them, and a `copy` of 40
/// bytes may double the value, or its depth.
#[derive(Clone, Copy, Debug, PartialEq, Eq)]
pub struct Limits {
    /// How many non-empty containers may nest at what an operation puts, those around it included. A
    /// move to a place that is no deeper isn't tested: there it nests as deep as before, or less.
    pub depth: usize,
    /// How much all that is copied may weigh: 48 for each value, and the bytes of strings and keys.
    pub copied: usize,
    /// How much all that is moved to a deeper place may weigh: it is walked, any other move isn't.
    pub moved: usize,
    /// How many elements and entries may change their places in all: an element that is inserted or removed
    /// shifts those behind it, and a removed key all entries of its object. Appending shifts none.
    pub shifted: usize,
}

impl Limits {
    /// The limits of `apply`: 512 containers, as `jzon::parse` reads back, copies of 16 MiB, moves to a
    /// deeper place of 64 MiB, and 2^26 elements and entries that change their places.
    pub const USUAL: Limits = Limits {
        depth: 512,
        copied: 16_777_216,
        moved: 67_108_864,
        shifted: 67_108_864,
    };
}

/// Why an operation can't be done.
#[derive(Clone, Copy)]
enum Fault {
    /// The pointer of this member, `path` or `from`, leads nowhere.
    Pointer(Member, PointerError),
    Operation(Cause),
    OutOfMemory,
}

/// What an operation does.
#[derive(Clone, Copy)]
enum Op {
    Add,
    Remove,
    Replace,
    Move,
    Copy,
    Test,
}

/// Applies a patch (RFC 6902) within the usual limits: its operations in their order, or none after
/// an error. Clones the value if the patch has a move, or if an operation other than a test isn't
/// the last. After an `Ok` the value weighs at most what it, the patch and the limit of copies
/// weighed together.
///
/// ```rust
/// patch::apply(alloc, &mut config, &patch)?;
/// ```
pub fn apply(alloc: Global, value: &mut JsonValue, patch: &JsonValue) -> Result<(), Error>
    ensures ok { OnOk result (applied (view patch.now) (view value.old) ≡ Some (view value.new)) }
    ensures within { OnOk result (applied_within usual (view patch.now) (view value.old)
        ≡ Some (view value.new)) }
    ensures depth { OnOk result (nest (view value.new) ≤ max 512 (nest (view value.old))) }
    ensures weight { OnOk result (weight (view value.new)
        ≤ weight (view value.old) + weight (view patch.now) + usual.copied) }
    ensures err { OnErr result (view value.new ≡ view value.old) }
    ensures error { IfErr result (IsErrorOf usual (view patch.now) (view value.old)) }
{
    apply_within(alloc, value, patch, &Limits::USUAL)
}

/// Applies a patch within these limits. An operation that passes one can't be done, and the cause is
/// `TooDeep` or `TooLarge`. What an operation clones is walked before, and of what is moved only
/// what gets to a deeper place. What it shifts is counted by the lengths of the containers. After an
/// `Ok` the value weighs at most what it, the patch and the limit of copies weighed together.
///
/// ```rust
/// let limits = Limits {
///     copied: 65_536,
///     ..Limits::USUAL
/// };
/// patch::apply_within(alloc, &mut config, &patch, &limits)?;
/// ```
pub fn apply_within(
    alloc: Global,
    value: &mut JsonValue,
    patch: &JsonValue,
    limits: &Limits,
) -> Result<(), Error>
    ensures ok { OnOk result (applied (view patch.now) (view value.old) ≡ Some (view value.new)) }
    ensures within { OnOk result (applied_within limits.now (view patch.now) (view value.old)
        ≡ Some (view value.new)) }
    ensures depth { OnOk result
        (nest (view value.new) ≤ max limits.now.depth (nest (view value.old))) }
    ensures weight { OnOk result (weight (view value.new)
        ≤ weight (view value.old) + weight (view patch.now) + limits.now.copied) }
    ensures err { OnErr result (view value.new ≡ view value.old) }
    ensures error { IfErr result (IsErrorOf limits.now (view patch.now) (view value.old)) }
{
    let JsonValue::Array(operations) = patch else {
        return Err(Error::new(alloc, What::Operation(Cause::NotAnArray)));
    };
    let mut left = *limits;
    let mut backup = None;
    for number in 0..operations.len() {
        let operation = &operations[number];
        let is_last = number + 1 == operations.len();
        let done = step(alloc, value, &mut backup, operation, is_last, &mut left);
        if let Err(fault) = done {
            if let Some(old) = backup {
                *value = old;
            }
            return Err(report(alloc, operation, number, fault));
        }
    }
    Ok(())
}

/// The error of an operation: with the pointer that leads nowhere, or else with its `path`, if that is
/// a text.
#[cold]
fn report(alloc: Global, operation: &JsonValue, number: usize, fault: Fault) -> Error
    ensures { Reports result (view operation.now) number fault }
{
    match fault {
        Fault::Pointer(member, error) => {
            let pointer = pointer_in(operation, member);
            let error = Error::at_pointer(alloc, pointer, What::Pointer(error));
            error.in_operation(number, Some(member))
        }
        Fault::Operation(cause) => {
            let path = pointer_in(operation, Member::Path);
            let error = Error::at_pointer(alloc, path, What::Operation(cause));
            error.in_operation(number, None)
        }
        Fault::OutOfMemory => Error::MEMORY,
    }
}

/// The text of a member, or the empty one.
fn pointer_in(operation: &JsonValue, member: Member) -> &str
    ensures { result.now ≡ pointer_in member (view operation.now) }
{
    match operation.get(name(member)) {
        Some(text) => text.as_str().unwrap_or(""),
        None => "",
    }
}

/// The name of a member.
fn name(member: Member) -> &'static str
    ensures { result.now ≡ name_of member }
{
    match member {
        Member::Op => "op",
        Member::Path => "path",
        Member::From => "from",
        Member::Value => "value",
    }
}

/// Does one operation. If it may have to be undone, the value is cloned first, unless `backup` has
/// a clone. Until then only tests were done (`kept`): so it is cloned as the patch found it.
fn step(
    alloc: Global,
    value: &mut JsonValue,
    backup: &mut Option<JsonValue>,
    operation: &JsonValue,
    is_last: bool,
    left: &mut Limits,
) -> Result<(), Fault>
    ensures done { IsDone (operated (view operation.now) (view value.old)) (view value.new) result }
    ensures within { OnOk result
        (is_within left.old (view operation.now) (view value.old) ≡ true) }
    ensures left { OnOk result
        (left.new ≡ left_after left.old (view operation.now) (view value.old)) }
    ensures backup { IsBackup (view value.old) (option_map view backup.old)
        (option_map view backup.new) }
    ensures err { backup.new ≡ None → OnErr result (view value.new ≡ view value.old) }
    ensures kept { backup.new ≡ None → is_last ≡ false → view value.new ≡ view value.old }
    ensures cause { IfErr result (λ e. IsCause e left.old (view operation.now) (view value.old)) }
{
    let op = op_of(operation)?;
    let path = text(operation, Member::Path)?;
    let needs_backup = match op {
        Op::Test => false,
        Op::Move => true,
        _ => !is_last,
    };
    if needs_backup && backup.is_none() {
        *backup = Some(cloned(alloc, value)?);
    }
    operate(alloc, value, op, path, operation, left)
}

/// What the operation is to do, by its member `op`.
fn op_of(operation: &JsonValue) -> Result<Op, Fault>
    ensures ok { IfOk result (λ op. meaning.op_of (view operation.now) ≡ Some op) }
    ensures err { OnErr result (meaning.op_of (view operation.now) ≡ None) }
    ensures cause { (l : Within) (v : Value) → IfErr result (λ e. IsCause e l (view operation.now) v) }
{
    if !operation.is_object() {
        return Err(Fault::Operation(Cause::NotAnObject));
    }
    match text(operation, Member::Op)? {
        "add" => Ok(Op::Add),
        "remove" => Ok(Op::Remove),
        "replace" => Ok(Op::Replace),
        "move" => Ok(Op::Move),
        "copy" => Ok(Op::Copy),
        "test" => Ok(Op::Test),
        _ => Err(Fault::Operation(Cause::UnknownOp)),
    }
}

/// The text of a member that has to be a string.
fn text<'a>(operation: &'a JsonValue, member: Member) -> Result<&'a str, Fault>
    requires { IsText member (view operation.now) }
    ensures ok { IfOk result (λ text. text_at (name_of member) (view operation.now)
        ≡ Some text.now) }
    ensures err { OnErr result (text_at (name_of member) (view operation.now) ≡ None) }
    ensures cause { (l : Within) (v : Value) → IfErr result (λ e. IsCause e l (view operation.now) v) }
{
    let value = operation
        .get(name(member))
        .ok_or(Fault::Operation(Cause::Missing(member)))?;
    value
        .as_str()
        .ok_or(Fault::Operation(Cause::NotAString(member)))
}

/// The member `value`.
fn operand(operation: &JsonValue) -> Result<&JsonValue, Fault>
    requires { option_map has_value (meaning.op_of (view operation.now)) ≡ Some true }
    ensures ok { IfOk result (λ v. meaning.operand (view operation.now) ≡ Some (view v.now)) }
    ensures err { OnErr result (meaning.operand (view operation.now) ≡ None) }
    ensures cause { (l : Within) (v : Value) → IfErr result (λ e. IsCause e l (view operation.now) v) }
{
    operation
        .get("value")
        .ok_or(Fault::Operation(Cause::Missing(Member::Value)))
}

/// Does an operation. After an error of a move, the value may be changed.
fn operate(
    alloc: Global,
    value: &mut JsonValue,
    op: Op,
    path: &str,
    operation: &JsonValue,
    left: &mut Limits,
) -> Result<(), Fault>
    requires op { meaning.op_of (view operation.now) ≡ Some op }
    requires path { text_at (codes "path") (view operation.now) ≡ Some path.now }
    ensures done { IsDone (operated_by op path.now (view operation.now) (view value.old))
        (view value.new) result }
    ensures depth { OnOk result
        (depth_by op path.now (view operation.now) (view value.old) ≤ left.old.depth) }
    ensures copied { OnOk result
        (left.new.copied + copied_by op (view operation.now) (view value.old) ≡ left.old.copied) }
    ensures moved { OnOk result
        (left.new.moved + moved_by op path.now (view operation.now) (view value.old)
        ≡ left.old.moved) }
    ensures shifted { OnOk result
        (left.new.shifted + shifted_by op path.now (view operation.now) (view value.old)
        ≡ left.old.shifted) }
    ensures left { OnOk result (left.new.depth ≡ left.old.depth) }
    ensures err { (op ≡ ops.Move → ⊥) → OnErr result (view value.new ≡ view value.old) }
    ensures kept { op ≡ ops.Test → view value.new ≡ view value.old }
    ensures cause { IfErr result (λ e. IsCause e left.old (view operation.now) (view value.old)) }
{
    match op {
        Op::Add => {
            let new = operand(operation)?;
            admit(path, new, left.depth)?;
            left.shifted = put(alloc, value, path, cloned(alloc, new)?, left.shifted)?;
            Ok(())
        }
        Op::Remove => {
            let (_old, room) = take(value, Member::Path, path, left.shifted)?;
            left.shifted = room;
            Ok(())
        }
        Op::Replace => {
            let new = operand(operation)?;
            admit(path, new, left.depth)?;
            replace(value, path, cloned(alloc, new)?)
        }
        Op::Move => relocate(alloc, value, text(operation, Member::From)?, path, left),
        Op::Copy => duplicate(alloc, value, text(operation, Member::From)?, path, left),
        Op::Test => test(value, path, operand(operation)?),
    }
}

/// Whether a value may be put at a pointer: it and the containers around it nest at most this deep.
fn admit(path: &str, new: &JsonValue, depth: usize) -> Result<(), Fault>
    ensures ok { OnOk result (slashes path.now + nest (view new.now) ≤ depth) }
    ensures err { IfErr result (λ e. (e ≡ Operation causes.TooDeep)
        × (depth < slashes path.now + nest (view new.now))) }
{
    if edit::nests_within(path, new, depth) {
        Ok(())
    } else {
        Err(Fault::Operation(Cause::TooDeep))
    }
}

/// As `admit`, of what a patch copies or moves: it may also weigh at most `room`, of which is returned
/// what is left. One that passes both limits is too deep.
fn admit_weighed(path: &str, new: &JsonValue, depth: usize, room: usize) -> Result<usize, Fault>
    ensures ok { IfOk result (λ left. left + weight (view new.now) ≡ room) }
    ensures depth { OnOk result (slashes path.now + nest (view new.now) ≤ depth) }
    ensures err { IfErr result (λ e. ((e ≡ Operation causes.TooDeep)
        × (depth < slashes path.now + nest (view new.now)))
        ⊎ ((e ≡ Operation causes.TooLarge) × (room < weight (view new.now)))) }
{
    match weigh_at(path, new, depth, room) {
        Some(left) => Ok(left),
        None => {
            admit(path, new, depth)?;
            Err(Fault::Operation(Cause::TooLarge))
        }
    }
}

/// What is left of `room` after the weight of a value, or `None` if it weighs more, or if `admit` refuses
/// it.
fn weigh_at(path: &str, new: &JsonValue, depth: usize, room: usize) -> Option<usize>
    ensures some { IfSome result (λ left. left + weight (view new.now) ≡ room) }
    ensures depth { IfSome result (λ _. slashes path.now + nest (view new.now) ≤ depth) }
    ensures none { result ≡ None → slashes path.now + nest (view new.now) ≤ depth
        → room < weight (view new.now) }
{
    let inside = depth.checked_sub(edit::slashes(path))?;
    weigh(new, inside, room)
}

/// A copy, with the error of a patch.
fn cloned(alloc: Global, value: &JsonValue) -> Result<JsonValue, Fault>
    ensures copy { IfOk result (λ copy. view copy ≡ view value.now) }
    ensures memory { IfErr result (λ e. e ≡ OutOfMemory) }
{
    match value.clone(alloc) {
        Ok(copy) => Ok(copy),
        Err(_error) => Err(Fault::OutOfMemory),
    }
}

/// The fault that the pointer of this member leads nowhere: a function for its clause, which serves
/// whatever looks a pointer up.
fn at(member: Member, error: PointerError) -> Fault
    ensures { (path : List ℕ) (u op v : Value) → IsLookup member path u op v
        → entry_at u path ≡ Err error → (path ≡ [] → Takes member op)
        → (l : Within) → IsCause result l op v }
{
    Fault::Pointer(member, error)
}

/// The value that the pointer of a member names.
fn look<'a>(value: &'a JsonValue, member: Member, path: &str) -> Result<&'a JsonValue, Fault>
    ensures ok { IfOk result (λ v. value_of (view value.now) path.now ≡ Some (view v.now)) }
    ensures err { OnErr result (value_of (view value.now) path.now ≡ None) }
    ensures cause { (op v : Value) → IsLookup member path.now (view value.now) op v
        → (l : Within) → IfErr result (λ e. IsCause e l op v) }
{
    match seek(value, path) {
        Ok(found) => Ok(found),
        Err(error) => Err(at(member, error)),
    }
}

/// As `edit::insert_at`, also for the whole value.
fn put(
    alloc: Global,
    value: &mut JsonValue,
    path: &str,
    new: JsonValue,
    room: usize,
) -> Result<usize, Fault>
    ensures done { IsDone (added_at (view new) (view value.old) path.now) (view value.new) result }
    ensures left { IfOk result (λ left. left + shifted_at shifted_new (view value.old) path.now
        ≡ room) }
    ensures err { OnErr result (view value.new ≡ view value.old) }
    ensures cause { (op v : Value) (l : Within) → IsLookup members.Path path.now (view value.old) op v
        → (room < shifted_at shifted_new (view value.old) path.now → l.shifted < shifted_in op v)
        → IfErr result (λ e. IsCause e l op v) }
{
    if path.is_empty() {
        *value = new;
        return Ok(room);
    }
    match edit::insert_at(alloc, value, path, new, room) {
        Ok(left) => Ok(left),
        Err(Refused::OutOfMemory) => Err(Fault::OutOfMemory),
        Err(Refused::TooMany) => Err(Fault::Operation(Cause::TooLarge)),
        Err(Refused::Lost(error)) => Err(at(Member::Path, error)),
    }
}

/// As `edit::remove_at`. The error names the member that has the pointer.
fn take(
    value: &mut JsonValue,
    member: Member,
    path: &str,
    room: usize,
) -> Result<(JsonValue, usize), Fault>
    ensures old { IfOk result (λ r. entry_of (view value.old) path.now ≡ Some (view r.0)) }
    ensures done { IsDone (removed_at (view value.old) path.now) (view value.new) result }
    ensures left { IfOk result (λ r. r.1 + shifted_at shifted_out (view value.old) path.now
        ≡ room) }
    ensures err { OnErr result (view value.new ≡ view value.old) }
    ensures cause { (op v : Value) (l : Within) → IsLookup member path.now (view value.old) op v
        → Takes member op
        → (room < shifted_at shifted_out (view value.old) path.now → l.shifted < shifted_in op v)
        → IfErr result (λ e. IsCause e l op v) }
{
    match edit::remove_at(value, path, room) {
        Ok(taken) => Ok(taken),
        Err(Refused::OutOfMemory) => Err(Fault::OutOfMemory),
        Err(Refused::TooMany) => Err(Fault::Operation(Cause::TooLarge)),
        Err(Refused::Lost(error)) => Err(at(member, error)),
    }
}

/// As `edit::replace_at`, without the old value.
fn replace(value: &mut JsonValue, path: &str, new: JsonValue) -> Result<(), Fault>
    ensures done { IsDone (updated_at (λ _. Some (view new)) (view value.old) path.now)
        (view value.new) result }
    ensures err { OnErr result (view value.new ≡ view value.old) }
    ensures cause { (op v : Value) → IsLookup members.Path path.now (view value.old) op v
        → (l : Within) → IfErr result (λ e. IsCause e l op v) }
{
    match edit::replace_at(value, path, new) {
        Ok(_old) => Ok(()),
        Err(error) => Err(at(Member::Path, error)),
    }
}

/// Copies a value. It is walked first: at its new place it may nest too deep, or weigh too much.
fn duplicate(
    alloc: Global,
    value: &mut JsonValue,
    from: &str,
    path: &str,
    left: &mut Limits,
) -> Result<(), Fault>
    ensures done { IsDone (option_and_then (λ w. added_at w (view value.old) path.now)
        (value_of (view value.old) from.now)) (view value.new) result }
    ensures depth { OnOk result (option_map_or (λ w. slashes path.now + nest w)
        (value_of (view value.old) from.now) 0 ≤ left.old.depth) }
    ensures copied { OnOk result (left.new.copied + option_map_or weight
        (value_of (view value.old) from.now) 0 ≡ left.old.copied) }
    ensures shifted { OnOk result (left.new.shifted
        + shifted_at shifted_new (view value.old) path.now ≡ left.old.shifted) }
    ensures left { OnOk result
        ((left.new.depth ≡ left.old.depth) × (left.new.moved ≡ left.old.moved)) }
    ensures err { OnErr result (view value.new ≡ view value.old) }
    ensures cause { (op : Value) → meaning.op_of op ≡ Some ops.Copy
        → text_at (codes "from") op ≡ Some from.now → text_at (codes "path") op ≡ Some path.now
        → IfErr result (λ e. IsCause e left.old op (view value.old)) }
{
    let original = look(value, Member::From, from)?;
    let room = admit_weighed(path, original, left.depth, left.copied)?;
    let new = cloned(alloc, original)?;
    left.copied = room;
    left.shifted = put(alloc, value, path, new, left.shifted)?;
    Ok(())
}

/// Moves a value. If the place is deeper, it is walked, since it may nest too deep there; the limit
/// on what it weighs bounds these walks.
fn relocate(
    alloc: Global,
    value: &mut JsonValue,
    from: &str,
    path: &str,
    left: &mut Limits,
) -> Result<(), Fault>
    ensures done { IsDone (moved_at (view value.old) from.now path.now) (view value.new) result }
    ensures depth { OnOk result (option_map_or (λ w. slashes path.now + nest w)
        (deepened_at (view value.old) from.now path.now) 0 ≤ left.old.depth) }
    ensures moved { OnOk result (left.new.moved + option_map_or weight
        (deepened_at (view value.old) from.now path.now) 0 ≡ left.old.moved) }
    ensures shifted { OnOk result (left.new.shifted
        + shifted_move (view value.old) from.now path.now ≡ left.old.shifted) }
    ensures left { OnOk result
        ((left.new.depth ≡ left.old.depth) × (left.new.copied ≡ left.old.copied)) }
    ensures cause { (op : Value) → meaning.op_of op ≡ Some ops.Move
        → text_at (codes "from") op ≡ Some from.now → text_at (codes "path") op ≡ Some path.now
        → IfErr result (λ e. IsCause e left.old op (view value.old)) }
{
    let source = look(value, Member::From, from)?;
    let room = left.shifted;
    if is_deeper(path, from) {
        left.moved = admit_weighed(path, source, left.depth, left.moved)?;
    }
    if from == path {
        return Ok(());
    }
    if is_below(path, from) {
        return Err(Fault::Operation(Cause::IntoItself));
    }
    let (moved, room) = take(value, Member::From, from, room)?;
    left.shifted = put(alloc, value, path, moved, room)?;
    Ok(())
}

/// Whether a pointer has more tokens than another one.
fn is_deeper(path: &str, from: &str) -> bool
    ensures { result ≡ is_deeper path.now from.now }
{
    edit::slashes(from) < edit::slashes(path)
}

/// Whether a pointer leads into what another one names.
fn is_below(path: &str, from: &str) -> bool
    ensures { result ≡ is_below path.now from.now }
{
    let path = path.as_bytes();
    let from = from.as_bytes();
    from.len() < path.len() && path.starts_with(from) && path[from.len()] == b'/'
}

/// Fails unless the value at the pointer is equal to the wanted one.
fn test(value: &JsonValue, path: &str, want: &JsonValue) -> Result<(), Fault>
    ensures done { IsDone (tested_at (view want.now) (view value.now) path.now) (view value.now)
        result }
    ensures cause { (op : Value) → meaning.op_of op ≡ Some ops.Test
        → text_at (codes "path") op ≡ Some path.now → meaning.operand op ≡ Some (view want.now)
        → (l : Within) → IfErr result (λ e. IsCause e l op (view value.now)) }
{
    if look(value, Member::Path, path)? == want {
        Ok(())
    } else {
        Err(Fault::Operation(Cause::TestFailed))
    }
}
