//! The arrays and objects of a text whose end isn't read yet. All their keys are on one stack, and
//! all their values on another; each container has a part of both, and is made of it at its end. In
//! clauses they are a list: by `HasAllValues` each key of an object has its value, by `AwaitsValue`
//! only the last one has none. A strict reading finds repeated keys by a `KnownKeys` of each
//! container; what only it needs is cold and apart.
//!
//! After an error the stacks are unspecified, unless a method says otherwise.

ghost use Rattle.std.specs.Prelude.{◌≡◌, ◌≢◌, ◌&&◌, if◌then◌else◌, slice_index, IfSome, None, Some, ◌≤◌, ◌<◌, [], ◌∷◌, ◌++◌, length, take, drop, vec_len, vec_capacity, IfOk, OnOk, OnErr, MatchOption, true, ◌+◌};
ghost use Rattle.std.specs.List.{zip};
ghost use Rattle.std.specs.Option.{is_some};
ghost use Rattle.jzon_base.specs.PairList.{find, put_each};
ghost use Rattle.jzon_base.specs.Private.KnownKeys.{Knows};
ghost use Rattle.jzon_tree.specs.Entries.{entries_of};
ghost use Rattle.jzon_tree.specs.View.{view, view_object};
ghost use Rattle.jzon.specs.Private.OpenContainers.{OpenContainers, entries_so_far, HasAllValues, AwaitsValue, new_container, IsAdded, IsClosed, whole, value_added, key_added, container_added, innermost_ended};
ghost use Rattle.jzon.specs.Private.Brackets.{empty_container};
ghost use Rattle.jzon.specs.Private.Machine.{before};
ghost use Rattle.jzon.specs.Private.Targets.{MayBegin, Puts};
ghost use Rattle.jzon_base.specs.Tokens.{begin_array, begin_object};
ghost use Rattle.std.specs.Str.{IsCharBoundary};

use crate::container_kind::ContainerKind;
use crate::primitive::put_primitive;
use crate::stop;
use jzon_base::key::Key;
use jzon_base::keys::KnownKeys;
use jzon_tree::object::Object;
use jzon_tree::value::JsonValue;
use std::alloc::{AllocError, Global};
use std::marker::Model;
use std::mem;

/// The first capacity for values, and for keys if the outermost container is an object.
const FIRST_ROOM: usize = 8;

/// The second capacity for values: as many as fit in the largest block that glibc keeps for reuse.
const SECOND_ROOM: usize = 21;

/// Above this many values, `cut_values` and `take_all` save copies and unused capacity.
const LONG: usize = 1024;

/// An open container: its kind, and where its keys and values begin on the stacks.
#[derive(Clone, Copy)]
struct Frame {
    kind: ContainerKind,
    first_key: usize,
    first_value: usize,
}

#[derive(Drop)]
pub(crate) struct Stacks {
    alloc: Global,
    keys: Vec<Key>,
    values: Vec<JsonValue>,
    innermost: Frame,
    /// The containers around the innermost one, the outermost first.
    around: Vec<Frame>,
    /// What is known of the keys of `innermost`; `None` if the reading isn't strict.
    known: Option<KnownKeys>,
    /// As `known`, of each container in `around`; empty if the reading isn't strict.
    known_around: Vec<KnownKeys>,
}

impl Model for Stacks {
    ghost use Rattle.jzon.specs.Private.OpenContainers.{OpenContainers};

    ghost Value = { OpenContainers };

    ghost use Rattle.std.specs.Coded.{codes};
    ghost use Rattle.jzon_tree.specs.contracts.value.JsonValue as value;

    ghost coded = { Prim.hlevel (codes, value.the_row.coded) };

    ghost use Rattle.jzon.specs.Private.Stacks.{containers_of, IsLaidOut};

    ghost view = { containers_of };

    ghost invariant = { IsLaidOut };
}

/// Makes room for one more value.
#[inline(always)]
fn reserve_value(alloc: Global, values: &mut Vec<JsonValue>) -> Result<(), AllocError>
    ensures items { values.new.items ≡ values.old.items }
    ensures ok { OnOk result (vec_len values.new + 1 ≤ vec_capacity values.new) }
{
    if values.len() < values.capacity() {
        return Ok(());
    }
    grow(alloc, values)
}

/// Makes room in a full stack of `FIRST_ROOM` by a new block, since glibc can reuse one more often
/// than enlarge that; in a larger one as a `Vec` does.
#[cold]
#[inline(never)]
fn grow(alloc: Global, values: &mut Vec<JsonValue>) -> Result<(), AllocError>
    ensures items { values.new.items ≡ values.old.items }
    ensures ok { OnOk result (vec_len values.new + 1 ≤ vec_capacity values.new) }
{
    if FIRST_ROOM < values.len() {
        return values.reserve(1);
    }
    let mut larger = Vec::with_capacity(alloc, SECOND_ROOM)?;
    larger.append(values)?;
    *values = larger;
    Ok(())
}

/// Removes and returns the values from `start` on, of a nested container, mostly in a block of
/// their exact size. More than `LONG` keep the stack's block if they use at least half of it and at
/// most an eighth as many are before them: those are moved, because a copy of many touches new
/// pages. After an error their order may differ.
#[inline(always)]
fn cut_values(stack: &mut Vec<JsonValue>, start: usize) -> Result<Vec<JsonValue>, AllocError>
    requires { start ≤ vec_len stack.old }
    ensures items { OnOk result (stack.new.items ≡ take start stack.old.items) }
    ensures tail { IfOk result (λ tail. tail.items ≡ drop start stack.old.items) }
    ensures err { OnErr result (vec_len stack.new ≡ vec_len stack.old) }
{
    let count = stack.len() - start;
    if LONG < count && start <= count / 8 && stack.capacity() / 2 <= count {
        // So the values from `start` on keep the block.
        stack.as_mut_slice().rotate_left(start);
        let front = stack.split_off(count)?;
        return Ok(mem::replace(stack, front));
    }
    stack.split_off(start)
}

/// Takes all that is on the stack, for the outermost container: in the stack's block, unless this
/// has outgrown `FIRST_ROOM` and is less than half used; then in one of the exact size. Above
/// `LONG` items the unused part of a kept block is given back, if the allocator can.
#[inline(always)]
fn take_all<T>(alloc: Global, stack: &mut Vec<T>) -> Result<Vec<T>, AllocError>
    ensures items { OnOk result (stack.new.items ≡ []) }
    ensures all { IfOk result (λ all. all.items ≡ stack.old.items) }
    ensures err { OnErr result (stack.new.items ≡ stack.old.items) }
{
    if stack.capacity() / 2 <= stack.len().max(FIRST_ROOM / 2) {
        if LONG < stack.len() {
            stack.shrink_to_fit();
        }
        return Ok(mem::replace(stack, Vec::new(alloc)));
    }
    stack.split_off(0)
}

/// Moves the `KnownKeys` of the innermost container to `around`, and begins with no keys for one
/// that is opened in it. An error changes neither.
#[cold]
#[inline(never)]
fn open_known(known: &mut Option<KnownKeys>, around: &mut Vec<KnownKeys>) -> Result<(), AllocError>
    requires { is_some known.old ≡ true }
    ensures new { OnOk result (is_some known.new ≡ true) }
    ensures known { OnOk result (IfSome known.new (Knows [])) }
    ensures around { OnOk result (IfSome known.old (λ outer. around.new.items
        ≡ around.old.items ++ outer ∷ [])) }
    ensures err { OnErr result ((known.new ≡ known.old) × (around.new.items ≡ around.old.items)) }
{
    around.reserve(1)?;
    if let Some(outer) = mem::replace(known, Some(KnownKeys::new())) {
        around.push_reserved(outer);
    }
    Ok(())
}

/// When a container ended: takes back the `KnownKeys` of the one around it.
#[cold]
#[inline(never)]
fn close_known(known: &mut Option<KnownKeys>, around: &mut Vec<KnownKeys>)
    ensures { MatchOption known.new (around.old.items ≡ [])
        (λ outer. around.old.items ≡ around.new.items ++ outer ∷ []) }
{
    *known = around.pop();
}

/// The object of these distinct keys and as many values, with the index that `known` may have.
/// `known` becomes that of no keys, as the innermost container then has none.
#[cold]
#[inline(never)]
fn object_of_known(
    alloc: Global,
    keys: Vec<Key>,
    known: &mut Option<KnownKeys>,
    values: Vec<JsonValue>,
) -> Result<Object, AllocError>
    requires even { length values.items ≡ length keys.items }
    requires some { is_some known.old ≡ true }
    requires known { IfSome known.old (Knows keys.items) }
    ensures new { is_some known.new ≡ true }
    ensures known { IfSome known.new (Knows []) }
    ensures pairs { IfOk result (λ object. entries_of object ≡ put_each (zip keys.items values.items)) }
{
    match mem::replace(known, Some(KnownKeys::new())) {
        Some(known) => Object::from_known(alloc, keys, known, values),
        None => unreachable!(),
    }
}

impl Stacks {
    /// The stacks of the outermost container, which is empty so far.
    pub(crate) fn new(
        alloc: Global,
        strict: bool,
        kind: ContainerKind,
    ) -> Result<Stacks, AllocError>
        ensures ok { IfOk result (λ stacks. stacks
            ≡ record { strict = strict; innermost = new_container kind; around = [] }) }
    {
        let key_room = match kind {
            ContainerKind::Array => 0,
            ContainerKind::Object => FIRST_ROOM,
        };
        Ok(Stacks {
            alloc,
            keys: Vec::with_capacity(alloc, key_room)?,
            values: Vec::with_capacity(alloc, FIRST_ROOM)?,
            innermost: Frame {
                kind,
                first_key: 0,
                first_value: 0,
            },
            around: Vec::new(alloc),
            known: if strict { Some(KnownKeys::new()) } else { None },
            known_around: Vec::new(alloc),
        })
    }

    #[inline(always)]
    pub(crate) fn innermost_kind(&self) -> ContainerKind
        ensures { result ≡ self.now.innermost.kind }
    {
        self.innermost.kind
    }

    #[inline(always)]
    pub(crate) fn depth(&self) -> usize
        ensures { result ≡ length self.now.around + 1 }
    {
        self.around.len() + 1
    }

    /// Adds an empty container to the innermost one.
    #[inline(always)]
    pub(crate) fn push_empty(&mut self, kind: ContainerKind) -> Result<(), AllocError>
        ensures ok { OnOk result ((v : JsonValue) × (view v ≡ empty_container kind)
            × (self.new ≡ value_added self.old v)) }
    {
        reserve_value(self.alloc, &mut self.values)?;
        self.values.push_reserved(kind.empty(self.alloc));
        Ok(())
    }

    /// Adds the primitive at offset `start`, whose first byte is `first` (0 at the end of the
    /// text), to the innermost container. Returns the offset after it; an error adds nothing. If
    /// `exact`, a number must keep its value. In `buffer` strings are unescaped.
    #[inline(always)]
    pub(crate) fn push_primitive(
        &mut self,
        exact: bool,
        source: &str,
        start: usize,
        first: u8,
        buffer: &mut String,
    ) -> stop::Result<usize>
        requires boundary { IsCharBoundary source.now start }
        requires first { first ≡ slice_index source.now start }
        requires no_array { first ≢ begin_array }
        requires no_object { first ≢ begin_object }
        ensures end { IfOk result (λ end. (start < end) × IsCharBoundary source.now end) }
        ensures outcome { Puts (λ v new. new ≡ value_added self.old v) self.old self.new result
            source.now start before (λ r fs. MayBegin r fs source.now start exact) }
    {
        reserve_value(self.alloc, &mut self.values)?;
        put_primitive(
            exact,
            self.alloc,
            source,
            start,
            first,
            buffer,
            &mut self.values,
        )
    }

    /// Adds a key to the innermost container, an object. If this has the key, a strict reading
    /// returns `true` instead. `wide` begins with `name`, for a faster copy.
    #[inline(always)]
    pub(crate) fn push_key(&mut self, name: &str, wide: &str) -> Result<bool, AllocError>
        requires object { self.old.innermost.kind ≡ ContainerKind.Object }
        requires even { HasAllValues ContainerKind.Object self.old.innermost }
        requires wide { take (length name.now) wide.now ≡ name.now }
        ensures rejected { IfOk result (λ rejected. rejected ≡ (self.old.strict
            && is_some (find name.now (entries_so_far self.old.innermost)))) }
        ensures pushed { IfOk result (λ rejected. self.new
            ≡ (if rejected then self.old else key_added self.old name.now)) }
    {
        if self.known.is_some() {
            return self.push_new_key(name, wide);
        }
        Key::push_wide(&mut self.keys, self.alloc, name, wide)?;
        Ok(false)
    }

    /// Adds a key to the innermost container, an object, or returns `true` if it has the key.
    #[cold]
    #[inline(never)]
    fn push_new_key(&mut self, name: &str, wide: &str) -> Result<bool, AllocError>
        requires strict { self.old.strict ≡ true }
        requires even { HasAllValues ContainerKind.Object self.old.innermost }
        requires wide { take (length name.now) wide.now ≡ name.now }
        ensures rejected { IfOk result (λ rejected. rejected
            ≡ is_some (find name.now (entries_so_far self.old.innermost))) }
        ensures pushed { IfOk result (λ rejected. self.new
            ≡ (if rejected then self.old else key_added self.old name.now)) }
    {
        let Some(known) = &mut self.known else {
            unreachable!()
        };
        let keys = &self.keys[self.innermost.first_key..];
        let is_known = known.has_or_notes(self.alloc, keys, name)?;
        if is_known {
            return Ok(true);
        }
        if let Err(error) = Key::push_wide(&mut self.keys, self.alloc, name, wide) {
            // `known` has the name, but the key isn't there, against the invariant.
            self.known = None;
            return Err(error);
        }
        Ok(false)
    }

    /// Opens a container in the innermost one, as its next value.
    #[inline(always)]
    pub(crate) fn open(&mut self, kind: ContainerKind) -> Result<(), AllocError>
        requires { AwaitsValue self.old.innermost.kind self.old.innermost }
        ensures ok { OnOk result (self.new ≡ container_added self.old kind) }
    {
        self.around.reserve(1)?;
        if self.known.is_some() {
            open_known(&mut self.known, &mut self.known_around)?;
        }
        // By fields, because a copy of the whole moves its padding in pieces.
        self.around.push_reserved(Frame { ..self.innermost });
        self.innermost.kind = kind;
        self.innermost.first_key = self.keys.len();
        self.innermost.first_value = self.values.len();
        Ok(())
    }

    /// Removes the innermost container, a nested array that ended, and returns its elements. A
    /// single one is moved without the call that many take.
    #[inline(always)]
    fn end_array(&mut self) -> Result<Vec<JsonValue>, AllocError>
        requires { self.old.innermost.keys ≡ [] }
        ensures values { IfOk result (λ values. values.items ≡ self.old.innermost.values) }
        ensures ok { OnOk result (self.new ≡ innermost_ended self.old) }
    {
        let start = self.innermost.first_value;
        if self.values.len() - start == 1 {
            let mut one = Vec::with_capacity(self.alloc, 1)?;
            if let Some(value) = self.values.pop() {
                one.push_reserved(value);
            }
            return Ok(one);
        }
        cut_values(&mut self.values, start)
    }

    /// Removes the innermost container, a nested object that ended, and returns it.
    #[inline(always)]
    fn end_object(&mut self) -> Result<Object, AllocError>
        requires object { self.old.innermost.kind ≡ ContainerKind.Object }
        requires even { HasAllValues ContainerKind.Object self.old.innermost }
        ensures object { IfOk result (λ object. view_object object ≡ whole self.old.innermost) }
        ensures ok { OnOk result (self.new ≡ innermost_ended self.old) }
    {
        let Frame {
            first_key,
            first_value,
            ..
        } = self.innermost;
        let values = cut_values(&mut self.values, first_value)?;
        let keys = self.keys.split_off(first_key)?;
        if self.known.is_some() {
            return object_of_known(self.alloc, keys, &mut self.known, values);
        }
        Object::from_entries(self.alloc, keys, values)
    }

    /// Goes back to the container around the innermost one, which has nothing left on the stacks,
    /// and adds `value`, made of it.
    #[inline(always)]
    fn close_with(&mut self, value: JsonValue) -> Result<(), AllocError>
        requires ended { self.old.innermost ≡ new_container self.old.innermost.kind }
        requires nested { 0 < length self.old.around }
        ensures { OnOk result (IsAdded self.old value self.new) }
    {
        let Some(frame) = self.around.pop() else {
            unreachable!()
        };
        self.innermost = frame;
        if self.known.is_some() {
            close_known(&mut self.known, &mut self.known_around);
        }
        reserve_value(self.alloc, &mut self.values)?;
        self.values.push_reserved(value);
        Ok(())
    }

    /// Ends the innermost container, a nested one, and adds it to the one around it.
    #[inline(always)]
    pub(crate) fn close(&mut self) -> Result<(), AllocError>
        requires even { HasAllValues self.old.innermost.kind self.old.innermost }
        requires nested { 0 < length self.old.around }
        ensures { OnOk result (IsClosed self.old self.new) }
    {
        match self.innermost.kind {
            ContainerKind::Array => {
                let elements = self.end_array()?;
                self.close_with(JsonValue::Array(elements))
            }
            ContainerKind::Object => {
                let object = self.end_object()?;
                self.close_with(JsonValue::Object(object))
            }
        }
    }

    /// The elements of the outermost container, an array that ended. A single one gets a block of
    /// one, where `take_all` would leave it `FIRST_ROOM`.
    #[inline(always)]
    fn finish_array(&mut self) -> Result<Vec<JsonValue>, AllocError>
        requires { self.old.around ≡ [] }
        ensures { IfOk result (λ values. values.items ≡ self.old.innermost.values) }
    {
        if self.values.len() == 1 {
            return self.values.split_off(0);
        }
        take_all(self.alloc, &mut self.values)
    }

    /// The outermost container, an object that ended.
    #[inline(always)]
    fn finish_object(&mut self) -> Result<Object, AllocError>
        requires object { self.old.innermost.kind ≡ ContainerKind.Object }
        requires even { HasAllValues ContainerKind.Object self.old.innermost }
        requires outermost { self.old.around ≡ [] }
        ensures { IfOk result (λ object. view_object object ≡ whole self.old.innermost) }
    {
        let values = take_all(self.alloc, &mut self.values)?;
        let keys = take_all(self.alloc, &mut self.keys)?;
        if self.known.is_some() {
            return object_of_known(self.alloc, keys, &mut self.known, values);
        }
        Object::from_entries(self.alloc, keys, values)
    }

    /// The value of the outermost container, which ended. Afterwards the stacks are unspecified.
    #[inline(always)]
    pub(crate) fn finish(&mut self) -> Result<JsonValue, AllocError>
        requires even { HasAllValues self.old.innermost.kind self.old.innermost }
        requires outermost { self.old.around ≡ [] }
        ensures { IfOk result (λ v. view v ≡ whole self.old.innermost) }
    {
        match self.innermost.kind {
            ContainerKind::Array => Ok(JsonValue::Array(self.finish_array()?)),
            ContainerKind::Object => Ok(JsonValue::Object(self.finish_object()?)),
        }
    }
}
